// The planner and the quick planner, and what both judge and write with.
//
// A choice list holds for each node what it may use while the present round is sent, as the searches of `graph` take it: NEW where
// it stands in an earlier round, EITHER in the present one, OLD where it stands in none yet.
#![tactic(auto)]

pub mod plan;
pub mod quick;

ghost use Rattle.std.specs.Prelude.{◌≡◌, ◌<◌, ℕ, List, length, get_or};
ghost use Rattle.routes.specs.Rules.{change_of};
ghost use Rattle.plans.specs.Working.{FitIs, SoughtBy, Room, Entering, Wrote, Rounded};

use graph::{EITHER, NEW};
use house::{Refusal, put_entry};
use rounds::mode::Mode;
use rounds::setting::Setting;
use routes::pair::judge;
use routes::rule::{Change, kind};

// The refusals that both planners give, 1 and 4 to 8, or the mode: the lent lengths come first, then those of the pair in
// `judge`'s order, then the mode, which is the order of their numbers.
fn fit(old: &[u8], new: &[u8], mode: u16, ids: &[u8], sizes: &[u8]) -> Result<Mode, Refusal>
    ensures { FitIs old.now new.now mode ids.now sizes.now result }
{
    if ids.len() < 1024 || sizes.len() < 1024 {
        return Err(Refusal::Unfit);
    }
    judge(old, new)?;
    Mode::try_from(mode)
}

// How many rounds are written, and how many ids.
#[derive(Clone, Copy, Debug, PartialEq, Eq)]
pub struct Given {
    pub rounds: usize,
    pub count: usize,
}

// Nothing is written yet.
const NONE: Given = Given {
    rounds: 0,
    count: 0,
};

// Writes the nodes of the present round, rising, behind the ids written, and places them. Returns the number of ids.
fn enter_all(choice: &mut [u8; 512], ids: &mut [u8], first: usize) -> usize
    requires { Entering choice.old ids.old first choice.old ids.old first 0 }
    ensures { Entering choice.old ids.old first choice.new ids.new result 512 }
{
    let mut count = first;
    for v in 0..512 {
        // Kept: `>` and not `== EITHER`, as the definition `present` has it.
        if choice[v] > NEW {
            choice[v] = NEW;
            put_entry(ids, count, v as u16);
            count += 1;
        }
    }
    count
}

// What happens to the rule of the node v.
fn change_at(setting: &Setting, v: usize) -> Change
    requires { v < 512 }
    ensures { result ≡ change_of (get_or setting.now.old.now v 512) (get_or setting.now.new.now v 512) }
{
    kind(setting.old[v], setting.new[v])
}

// Puts all nodes that are wanted into the present round.
fn seek<F: Fn(usize) -> bool>(choice: &mut [u8; 512], wanted: F)
    requires { (v : ℕ) → v < 512 → F.pre wanted v }
    ensures { SoughtBy (F.post wanted) choice.old choice.new 512 }
{
    for v in 0..512 {
        if wanted(v) {
            choice[v] = EITHER;
        }
    }
}

// A plan that is being written: the choice list, the ids and sizes written so far, and how many of both.
// Kept: no function `new`; tried, and after a call that takes both slices only their lengths are known.
#[derive(Drop)]
struct Draft<'a> {
    choice: [u8; 512],
    ids: &'a mut [u8],
    sizes: &'a mut [u8],
    given: Given,
}

impl Draft<'_> {
    // Writes the present round behind what is written, and places it; a round of no node is none.
    fn write_round(&mut self)
        requires { Room self.old.choice self.old.ids.now self.old.sizes.now self.old.given.rounds self.old.given.count }
        ensures same_ids { self.new.ids.ghost_name ≡ self.old.ids.ghost_name }
        ensures same_sizes { self.new.sizes.ghost_name ≡ self.old.sizes.ghost_name }
        ensures wrote { Wrote
            self.old.choice
            self.old.ids.now
            self.old.sizes.now
            self.old.given.rounds
            self.old.given.count
            self.new.choice
            self.new.ids.now
            self.new.sizes.now
            self.new.given.rounds
            self.new.given.count }
    {
        let done = self.given;
        let count = enter_all(&mut self.choice, self.ids, done.count);
        if count == done.count {
            return;
        }
        put_entry(self.sizes, done.rounds, (count - done.count) as u16);
        self.given = Given {
            rounds: done.rounds + 1,
            count,
        };
    }

    // Writes the round of all nodes that are wanted.
    fn round<F: Fn(usize) -> bool>(&mut self, wanted: F)
        requires told { (v : ℕ) → v < 512 → F.pre wanted v }
        requires room { (c : List ℕ)
            → SoughtBy (F.post wanted) self.old.choice c 512
            → Room c self.old.ids.now self.old.sizes.now self.old.given.rounds self.old.given.count }
        ensures same_ids { self.new.ids.ghost_name ≡ self.old.ids.ghost_name }
        ensures same_sizes { self.new.sizes.ghost_name ≡ self.old.sizes.ghost_name }
        ensures wrote { Rounded
            (F.post wanted)
            self.old.choice
            self.old.ids.now
            self.old.sizes.now
            self.old.given.rounds
            self.old.given.count
            self.new.choice
            self.new.ids.now
            self.new.sizes.now
            self.new.given.rounds
            self.new.given.count }
    {
        seek(&mut self.choice, wanted);
        self.write_round();
    }
}
