// Judging a pair of routes: refusals 4 to 7, and 1 where a slice is not whole entries.
//
// Each test is made over both routes before the next, the old route first. A test that runs through a route stops at the
// first place where it fails.
ghost use Rattle.std.specs.Prelude.{◌<◌, ◌≡◌, length, get_or};
ghost use Rattle.std.specs.Bool.{then_some};
ghost use Rattle.house.specs.Numbers.{entries};
ghost use Rattle.house.specs.Finds.{Finds};
ghost use Rattle.routes.specs.Routes.{Good, Repeat, source};
ghost use Rattle.routes.specs.Tests.{WrongEnd, ill_sized, InEither, LowIds};
ghost use Rattle.routes.specs.Replies.{Judges};

use house::{Refusal, entry};

// A good pair of routes, as bytes.
#[derive(Clone, Copy)]
pub struct Pair<'a> {
    pub old: &'a [u8],
    pub new: &'a [u8],
    ghost good: { Good (entries old.now) (entries new.now) },
}

impl Pair<'_> {
    // The id that both routes begin with.
    pub fn source(&self) -> usize
        ensures is { result ≡ source (entries self.now.old.now) }
        ensures node { result < 512 }
    {
        usize::from(entry(self.old, 0))
    }
}

// A list of ids as bytes, each a node: below 512.
#[derive(Clone, Copy)]
pub struct Nodes<'a> {
    pub ids: &'a [u8],
    ghost low: { LowIds (entries ids.now) },
}

impl Nodes<'_> {
    // The index of the first id that stands before it already, in one run with a mark for each id met.
    pub fn first_again(&self) -> Option<usize>
        ensures { Finds (Repeat (entries self.now.ids.now)) (length (entries self.now.ids.now)) result }
    {
        let mut met = [false; 512];
        for i in 0..self.ids.len() / 2 {
            let v = usize::from(entry(self.ids, i));
            if met[v] {
                return Some(i);
            }
            met[v] = true;
        }
        None
    }
}

// What a search finds in the pair first: the route's number, 1 or 2, and what it answers there.
// Kept: a route is the number 1 or 2, as Told and the theorems on refusals say it.
fn in_either<T: Copy, F: Fn(T) -> Option<usize>>(old: T, new: T, find: F) -> Option<(usize, usize)>
    requires { F.IsAlwaysCallable find }
    ensures { InEither (F.post find old) (F.post find new) result }
{
    if let Some(i) = find(old) {
        return Some((1, i));
    }
    if let Some(i) = find(new) {
        return Some((2, i));
    }
    None
}

// A wrong length, at the place 0: a route has 2 to 256 ids.
fn wrong_length(route: &[u8]) -> Option<usize>
    ensures { result ≡ then_some (ill_sized (length (entries route.now))) 0 }
{
    let n = route.len() / 2;
    (n < 2 || 256 < n).then_some(0)
}

// The index of the route's first id over 511.
fn over(route: &[u8]) -> Option<usize>
    ensures { Finds (λ i. 511 < get_or (entries route.now) i 0) (length (entries route.now)) result }
{
    (0..route.len() / 2).find(|&i| entry(route, i) > 511)
}

// The index of the route's first repeat: by rising index, each id against all before it, and the search is left at the
// first repeat found.
fn first_repeat(route: &[u8]) -> Option<usize>
    ensures { Finds (Repeat (entries route.now)) (length (entries route.now)) result }
{
    // Kept: two nested scans left by a label with the index of the repeat, a form that document 01 names.
    'search: {
        for i in 0..route.len() / 2 {
            let v = entry(route, i);
            for j in 0..i {
                if entry(route, j) == v {
                    break 'search Some(i);
                }
            }
        }
        None
    }
}

// The index of the route's first repeat. Only a route in which the run with marks meets one pays for the two scans.
fn repeat(route: Nodes) -> Option<usize>
    ensures { Finds (Repeat (entries route.entry.ids.now)) (length (entries route.entry.ids.now)) result }
{
    // Kept: the two scans answer, the form that document 01 names; the run would give the same index.
    route.first_again()?;
    first_repeat(route.ids)
}

// Which of the pair's ends differ: the first ids, as the place 0, or the last, as the place 1.
fn wrong_end(old: &[u8], new: &[u8]) -> Option<usize>
    requires { (0 < length (entries old.now)) × (0 < length (entries new.now)) }
    ensures { WrongEnd (entries old.now) (entries new.now) result }
{
    if entry(old, 0) != entry(new, 0) {
        return Some(0);
    }
    if entry(old, old.len() / 2 - 1) != entry(new, new.len() / 2 - 1) {
        return Some(1);
    }
    None
}

// Judges a pair of routes given as bytes: sound, or the refusal that is given, of those that apply the one with the lowest
// number, then the old route before the new, then the first place. The tests come in the order of their numbers, and each
// answers its own first failure.
pub fn judge(old: &[u8], new: &[u8]) -> Result<(), Refusal>
    ensures { Judges old.now new.now result }
{
    if old.len() % 2 != 0 || new.len() % 2 != 0 {
        return Err(Refusal::Unfit);
    }
    if let Some((w, _)) = in_either(old, new, wrong_length) {
        return Err(Refusal::RouteLength(w));
    }
    if let Some((w, i)) = in_either(old, new, over) {
        return Err(Refusal::RouteId(w, i));
    }
    if let Some((w, i)) = in_either(Nodes { ids: old }, Nodes { ids: new }, repeat) {
        return Err(Refusal::RouteRepeat(w, i));
    }
    if let Some(p) = wrong_end(old, new) {
        return Err(Refusal::EndsDiffer(p));
    }
    Ok(())
}
