// The walk from the source in one state.
ghost use Rattle.std.specs.Prelude.{◌≡◌, ◌<◌};
ghost use Rattle.house.specs.Finds.{Finds};
ghost use Rattle.house.specs.Sets.{has};
ghost use Rattle.routes.specs.Replies.{WalkReply};
ghost use Rattle.routes.specs.WalkParts.{next_in, Goes, Stray};

use crate::pair::{Pair, judge};
use crate::rule::{HANDED_OFF, NOTHING, due_nodes, next_values};
use house::{IdSet, Refusal};

// What the walk answers. Each carries the hops made, the hop back included.
#[derive(Clone, Copy, Debug, PartialEq, Eq)]
pub enum Walked {
    // at the destination: hops
    Arrived(usize),
    // at a node that has no rule: node, hops
    Dropped(usize, usize),
    // at the first node come to a second time: node, hops
    Looped(usize, usize),
}

// The first id of the set that isn't marked as due: the ids are tried by rising number.
fn stray(set: &IdSet, due: &[bool; 512]) -> Option<usize>
    ensures { Finds (Stray set.now.words due.now) 512 result }
{
    (0..512).find(|&i| set.contains(i) && !due[i])
}

// A state: the tables of the two routes, and the set of the nodes that have changed.
#[derive(Clone, Copy)]
struct State<'a> {
    old: &'a [u16; 512],
    new: &'a [u16; 512],
    changed: &'a IdSet,
}

impl State<'_> {
    // The next value of the node `v`: by the new table where `v` has changed, else by the old one.
    fn next(&self, v: usize) -> u16
        requires { v < 512 }
        ensures { result ≡ next_in self.now.old.now self.now.new.now (has self.now.changed.now.words) v }
    {
        if self.changed.contains(v) {
            self.new[v]
        } else {
            self.old[v]
        }
    }

    // What the walk from `s` by the next values comes to. Each node come to is marked before it is left, so the first marked
    // one come to is the first come to a second time; a node is marked once, so the walk ends.
    fn walk_from(&self, s: usize) -> Walked
        requires { s < 512 }
        ensures { Goes (next_in self.now.old.now self.now.new.now (has self.now.changed.now.words)) s result }
    {
        let mut seen = [false; 512];
        let mut at = s;
        let mut hops: usize = 0;
        while !seen[at] {
            seen[at] = true;
            let to = self.next(at);
            if to == HANDED_OFF {
                return Walked::Arrived(hops);
            }
            if to >= NOTHING {
                return Walked::Dropped(at, hops);
            }
            at = usize::from(to);
            hops += 1;
        }
        Walked::Looped(at, hops)
    }
}

// Walks the pair of routes from its source in the state `set`, a set of ids given as 64 bytes: arrived, dropped or looped,
// with the hops made; or the refusal that is given. 1 comes first, then those of the pair in `judge`'s order, then 12 with
// the lowest id of the set that isn't due: the tests come in the order of their numbers.
pub fn walk(old: &[u8], new: &[u8], set: &[u8]) -> Result<Walked, Refusal>
    ensures { WalkReply old.now new.now set.now result }
{
    if set.len() != 64 {
        return Err(Refusal::Unfit);
    }
    judge(old, new)?;
    let was = next_values(old);
    let will = next_values(new);
    let changed = IdSet::from_bytes(set);
    if let Some(i) = stray(&changed, &due_nodes(&was, &will)) {
        return Err(Refusal::NotDue(0, i));
    }
    let state = State {
        old: &was,
        new: &will,
        changed: &changed,
    };
    Ok(state.walk_from(Pair { old, new }.source()))
}
