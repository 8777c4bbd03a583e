// The jumps of a node.
ghost use Rattle.std.specs.Prelude.{◌≡◌, ℕ, ◌<◌, length, drop, pos, ◌-ℤ◌, get_or, Some};
ghost use Rattle.std.proofs.Math.Option.{some};
ghost use Rattle.house.specs.Numbers.{entries};
ghost use Rattle.house.specs.Finds.{Finds};
ghost use Rattle.routes.specs.Jumps.{letter as sign, Meets, JumpIn};
ghost use Rattle.routes.specs.Replies.{Jumps};

use crate::pair::{Pair, judge};
use house::{Refusal, entry};

// The old-order and the new-order jump of a node.
#[derive(Clone, Copy, Debug, PartialEq, Eq)]
pub struct NodeJumps {
    pub old_order: i32,
    pub new_order: i32,
}

// The index of `v` on the route.
fn position(route: &[u8], v: u16) -> Option<usize>
    ensures { Finds (λ i. get_or (entries route.now) i 0 ≡ v) (length (entries route.now)) result }
{
    (0..route.len() / 2).find(|&i| entry(route, i) == v)
}

// The position on `other` of the first entry of `along`, from index `from` on, that is on `other`.
fn meet(along: &[u8], other: &[u8], from: usize) -> Option<usize>
    ensures { Meets (entries other.now) (drop from (entries along.now)) result }
{
    for i in from..along.len() / 2 {
        if let Some(p) = position(other, entry(along, i)) {
            return Some(p);
        }
    }
    None
}

// The signed difference of two route positions, which are at most 255.
fn difference(a: usize, b: usize) -> i32
    requires { (a < 256) × (b < 256) }
    ensures { result ≡ pos a -ℤ pos b }
{
    a as i32 - b as i32
}

// The node's jump in the order of the pair's old route, None where it has none: the next meeting node is taken along the
// new route, and the two positions on the old one.
fn by(pair: Pair, node: u16) -> Option<i32>
    ensures { JumpIn (entries pair.entry.old.now) (entries pair.entry.new.now) node result }
{
    // both places come before the search: a node that is on one route alone costs no more than two scans
    let own = position(pair.old, node)?;
    let from = position(pair.new, node)? + 1;
    let met = meet(pair.new, pair.old, from)?;
    Some(difference(met, own))
}

// The jumps of `node`: the refusal of the pair where it isn't good, the refusal of the node where it has none, and else the
// jump in the order of each route.
pub fn jumps(old: &[u8], new: &[u8], node: u16) -> Result<NodeJumps, Refusal>
    ensures { Jumps old.now new.now node result }
{
    judge(old, new)?;
    let none = Refusal::NoJump(usize::from(node));
    Ok(NodeJumps {
        old_order: by(Pair { old, new }, node).ok_or(none)?,
        new_order: by(Pair { old: new, new: old }, node).ok_or(none)?,
    })
}

// The sign of a jump as a letter: F forward, B backward.
pub fn letter(jump: i32) -> u8
    ensures { result ≡ sign jump }
{
    if jump < 0 { b'B' } else { b'F' }
}
