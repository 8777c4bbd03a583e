// Rules as tables of next values, and the nodes that are due.
ghost use Rattle.std.specs.Prelude.{◌≡◌};
ghost use Rattle.house.specs.Numbers.{entries};
ghost use Rattle.routes.specs.Rules.{Values, Differ, change_of, tally, apart};

use house::entry;
use std::array::from_fn;

// The next value of a node that isn't on the route.
// Kept: a number beside the ids; the definition `value` says 512 and 513, and graph's searches and the C calls of the
// benchmark take the tables as numbers.
pub const NOTHING: u16 = 512;

// The next value of the route's last node, which hands off.
pub const HANDED_OFF: u16 = 513;

// What happens to a node's rule.
#[derive(Clone, Copy, Debug, PartialEq, Eq)]
pub enum Change {
    Kept,
    Install,
    Remove,
    Switch,
}

// The next values of the 512 nodes on the route of these bytes. The entries are taken from the last to the first, so that a
// node gets the id after its first place; an id over 511 has no place in the table.
pub fn next_values(route: &[u8]) -> [u16; 512]
    ensures { Values (entries route.now) result }
{
    let mut values = [NOTHING; 512];
    let mut after = HANDED_OFF;
    for i in (0..route.len() / 2).rev() {
        let id = entry(route, i);
        let v = usize::from(id);
        if v < 512 {
            values[v] = after;
        }
        after = id;
    }
    values
}

// What happens to the rule of a node whose next value goes from a to b.
pub fn kind(a: u16, b: u16) -> Change
    ensures { result ≡ change_of a b }
{
    match (a, b) {
        _ if a == b => Change::Kept,
        (NOTHING, _) => Change::Install,
        (_, NOTHING) => Change::Remove,
        _ => Change::Switch,
    }
}

// A mark for each node at which the two tables differ: with the tables of a good pair of routes, for each due node.
pub fn due_nodes(old: &[u16; 512], new: &[u16; 512]) -> [bool; 512]
    ensures { Differ old.now new.now result }
{
    from_fn(|v| old[v] != new[v])
}

// At how many nodes the two tables differ: with the tables of a good pair of routes, how many nodes are due.
pub fn due_count(old: &[u16; 512], new: &[u16; 512]) -> usize
    ensures { result ≡ tally 512 (apart old.now new.now) }
{
    (0..512).filter(|&v| old[v] != new[v]).count()
}
