// Judging a change: a pair of routes, a mode and a schedule. Refusals 1 and 4 to 14.
//
// Each test is made over the whole input before the next, the lowest number first, and answers its own first failure. The
// lists may be of any length: no sum that is made exceeds the number of ids given.
ghost use Rattle.std.specs.Prelude.{◌≡◌, false, eqb, length, get_or};
ghost use Rattle.house.specs.Numbers.{entries};
ghost use Rattle.house.specs.Finds.{Finds};
ghost use Rattle.routes.specs.Routes.{Good};
ghost use Rattle.rounds.specs.Schedule.{sum, round_of, ScheduleFault};
ghost use Rattle.rounds.specs.Tests.{Located, Fitting, Falls, Stray, Lost, Unplaced, Answers};
ghost use Rattle.rounds.specs.Replies.{JudgesChange};

use crate::mode::Mode;
use house::{Refusal, entry};
use routes::pair::{self, Nodes, Pair};
use routes::rule;

// A schedule as bytes: its ids, all rounds joined, and the sizes of its rounds.
#[derive(Clone, Copy)]
struct Schedule<'a> {
    ids: &'a [u8],
    sizes: &'a [u8],
}

impl Schedule<'_> {
    // How many rounds end at the index `i` or before it, from the first round on, and how far `i` lies past them: their sizes
    // are taken from it, until one exceeds what is left.
    fn locate(&self, i: usize) -> (usize, usize)
        ensures { Located (entries self.now.sizes.now) i result.0 result.1 }
    {
        let n = self.sizes.len() / 2;
        let mut left = i;
        for k in 0..n {
            let z = usize::from(entry(self.sizes, k));
            if left < z {
                return (k, left);
            }
            left -= z;
        }
        (n, left)
    }

    // Whether the sizes add up to the number of ids: all rounds end at the end of the ids.
    fn adds_up(&self) -> bool
        ensures { result ≡ eqb (sum (entries self.now.sizes.now)) (length (entries self.now.ids.now)) }
    {
        let (rounds, left) = self.locate(self.ids.len() / 2);
        rounds == self.sizes.len() / 2 && left == 0
    }

    // The index of the first size that is 0.
    fn first_empty(&self) -> Option<usize>
        ensures { Finds (λ k. get_or (entries self.now.sizes.now) k 0 ≡ 0) (length (entries self.now.sizes.now)) result }
    {
        (0..self.sizes.len() / 2).find(|&k| entry(self.sizes, k) == 0)
    }

    // The number, from 1, of the round in which the index `i` lies. Past the last round it is one more than the number of
    // rounds.
    fn round_of(&self, i: usize) -> usize
        ensures { result ≡ round_of (entries self.now.sizes.now) i }
    {
        self.locate(i).0 + 1
    }

    // The index of the first id that is not above the one before it in its round. `end` is where the rounds begun so far end:
    // there the next one begins, and its first id has none before it.
    fn first_fall(&self) -> Option<usize>
        requires { Fitting (entries self.now.ids.now) (entries self.now.sizes.now) }
        ensures { Finds (Falls (entries self.now.ids.now) (entries self.now.sizes.now)) (length (entries self.now.ids.now)) result }
    {
        let mut t = 0;
        let mut end = 0;
        for i in 0..self.ids.len() / 2 {
            if i == end {
                end += usize::from(entry(self.sizes, t));
                t += 1;
            } else if entry(self.ids, i) <= entry(self.ids, i - 1) {
                return Some(i);
            }
        }
        None
    }

    // Judges the mode and the schedule, refusals 8 to 14, of a change between the pair of routes.
    fn judge(&self, pair: Pair, mode: u16) -> Result<(), Refusal>
        ensures { Answers
            (ScheduleFault (entries pair.entry.old.now) (entries pair.entry.new.now) mode (entries self.now.ids.now) (entries self.now.sizes.now))
            result }
    {
        Mode::try_from(mode)?;
        if !self.adds_up() {
            return Err(Refusal::SizesSum);
        }
        if let Some(k) = self.first_empty() {
            return Err(Refusal::RoundEmpty(k + 1));
        }
        if let Some(i) = self.first_fall() {
            return Err(Refusal::NotRising(self.round_of(i), i));
        }
        let due = rule::due_nodes(&rule::next_values(pair.old), &rule::next_values(pair.new));
        if let Some(i) = first_not_due(self.ids, &due) {
            return Err(Refusal::NotDue(self.round_of(i), i));
        }
        let nodes = Nodes { ids: self.ids };
        if let Some(i) = nodes.first_again() {
            return Err(Refusal::Again(self.round_of(i), i));
        }
        if let Some(v) = first_missing(nodes, &due) {
            return Err(Refusal::Missing(v));
        }
        Ok(())
    }
}

// Whether the id has its mark. One over 511 has none.
fn marked(marks: &[bool; 512], id: u16) -> bool
    ensures { result ≡ get_or marks.now id false }
{
    let v = usize::from(id);
    v < 512 && marks[v]
}

// The index of the first id that has no mark.
fn first_not_due(ids: &[u8], due: &[bool; 512]) -> Option<usize>
    ensures { Finds (Stray due.now (entries ids.now)) (length (entries ids.now)) result }
{
    (0..ids.len() / 2).find(|&i| !marked(due, entry(ids, i)))
}

// The marks without those of the nodes.
fn unplaced(nodes: Nodes, due: &[bool; 512]) -> [bool; 512]
    ensures { Unplaced due.now (entries nodes.entry.ids.now) result }
{
    let mut left = *due;
    for i in 0..nodes.ids.len() / 2 {
        left[usize::from(entry(nodes.ids, i))] = false;
    }
    left
}

// The lowest marked node that is none of the nodes.
fn first_missing(nodes: Nodes, due: &[bool; 512]) -> Option<usize>
    ensures { Finds (Lost due.now (entries nodes.entry.ids.now)) 512 result }
{
    unplaced(nodes, due).iter().position(|&mark| mark)
}

// Judges a change given as bytes: sound, or the refusal that is given, of those that apply the one with the lowest number,
// then the lowest round, then the lowest place. Past the pair of routes only a good pair is left.
pub fn judge(old: &[u8], new: &[u8], mode: u16, ids: &[u8], sizes: &[u8]) -> Result<(), Refusal>
    ensures { JudgesChange old.now new.now mode ids.now sizes.now result }
{
    if ids.len() % 2 != 0 || sizes.len() % 2 != 0 {
        return Err(Refusal::Unfit);
    }
    pair::judge(old, new)?;
    Schedule { ids, sizes }.judge(Pair { old, new }, mode)
}
