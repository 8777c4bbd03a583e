// The check: refusals 1 and 4 to 17, or yes with the number of rounds and of due nodes.
//
// A round's states are those that respect its choice: earlier rounds new only, the round itself either, all others old only.
// One test of the choice decides the round; to name the subset, the round's ids are decided one by one, each with a test.
ghost use Rattle.std.specs.Prelude.{◌≡◌, ◌<◌, ◌≤◌, length, Some};
ghost use Rattle.house.specs.Numbers.{entries};
ghost use Rattle.house.specs.Refusals.{Clear};
ghost use Rattle.routes.specs.Rules.{due, tally};
ghost use Rattle.rounds.specs.Mode.{mode_no};
ghost use Rattle.rounds.specs.States.{Named};
ghost use Rattle.rounds.specs.Replies.{ChangeFault, written, Checks};
ghost use Rattle.rounds.specs.Working.{Stands, the_fault, Painted, Coded, Searched, Decided, Refuses};

use crate::faults::Fault;
use crate::mode::Mode;
use crate::schedule;
use crate::setting::Setting;
use graph::{EITHER, NEW, OLD};
use house::{IdSet, Refusal, entry, put_word};
use routes::pair::Pair;
use routes::rule::due_count;

// What the check says of a schedule that passes: how many rounds it has, and how many nodes are due.
#[derive(Clone, Copy, Debug, PartialEq, Eq)]
pub struct Accepted {
    pub rounds: usize,
    pub dues: usize,
}

// A bad round: what it shows, its number, and the index of its first id.
#[derive(Clone, Copy, Debug, PartialEq, Eq)]
struct BadRound {
    fault: Fault,
    round: usize,
    from: usize,
}

// Makes the choice of the ids from the index `from` to before `to` the number q. A number over 511 has no choice.
fn paint(choice: &mut [u8; 512], ids: &[u8], from: usize, to: usize, q: u8)
    requires { from ≤ to }
    ensures { Painted (entries ids.now) from to q choice.old choice.new }
{
    for i in from..to {
        let id = usize::from(entry(ids, i));
        if id < 512 {
            choice[id] = q;
        }
    }
}

// Decides one id of the bad round: old only, where the fault is still there then, else new only and in the set.
fn decide(setting: &Setting, fault: Fault, id: usize, choice: &mut [u8; 512], subset: &mut IdSet)
    requires { id < 512 }
    ensures { Decided
        (the_fault fault)
        (mode_no setting.now.mode)
        setting.now.old.now
        setting.now.new.now
        setting.now.source
        choice.old
        subset.old.words
        id
        choice.new
        subset.new.words }
{
    choice[id] = OLD;
    if setting.shows(choice, fault) {
        return;
    }
    choice[id] = NEW;
    subset.insert(id);
}

// Writes the eight words of a set to the front of the lent bytes.
fn write(set: &mut [u8], subset: &IdSet)
    requires { 64 ≤ length set.old }
    ensures { set.new ≡ written subset.now.words set.old }
{
    for (i, &word) in subset.words.iter().enumerate() {
        put_word(set, i, word);
    }
}

// The refusal of a bad round with its named subset: 15 where the subset is empty, else 16 or 17 with its size, and the subset
// is written.
fn refuse(bad: BadRound, subset: &IdSet, set: &mut [u8]) -> Refusal
    requires { 64 ≤ length set.old }
    ensures { Refuses (the_fault bad.fault) bad.round subset.now.words set.old result set.new }
{
    let n = subset.len();
    if n == 0 {
        return Refusal::BeginsFaulty(bad.round);
    }
    write(set, subset);
    match bad.fault {
        Fault::Drop => Refusal::Drop(bad.round, n),
        Fault::Loop => Refusal::Loop(bad.round, n),
    }
}

// A change that is judged sound, with what every test of its rounds stands on.
#[derive(Clone, Copy)]
struct Sound<'a> {
    pair: Pair<'a>,
    setting: &'a Setting<'a>,
    ids: &'a [u8],
    sizes: &'a [u8],
    ghost clear: { Clear (ChangeFault pair.old.now pair.new.now (mode_no setting.now.mode) ids.now sizes.now) },
    ghost stands: { Stands (entries pair.old.now) (entries pair.new.now) setting.now.old.now setting.now.new.now setting.now.source },
}

impl Sound<'_> {
    // The first bad round. It leaves the choice of that round's states in `choice`, which has OLD everywhere at first: each
    // round is made either, tested, and made new only.
    fn first_bad(&self, choice: &mut [u8; 512]) -> Option<BadRound>
        requires { Coded (entries self.now.ids.now) (entries self.now.sizes.now) 1 0 choice.old }
        ensures { Searched
            (mode_no self.now.setting.now.mode)
            (entries self.now.pair.old.now)
            (entries self.now.pair.new.now)
            (entries self.now.ids.now)
            (entries self.now.sizes.now)
            result
            choice.new }
    {
        let mut from = 0;
        for t in 0..self.sizes.len() / 2 {
            let to = from + usize::from(entry(self.sizes, t));
            paint(choice, self.ids, from, to, EITHER);
            if let Some(fault) = self.setting.first_shown(choice) {
                return Some(BadRound {
                    fault,
                    round: t + 1,
                    from,
                });
            }
            paint(choice, self.ids, from, to, NEW);
            from = to;
        }
        None
    }

    // The subset that is named for the first bad round: its ids are decided rising, so that the lowest ids stay out of it where
    // they can.
    fn named(&self, bad: BadRound, choice: &mut [u8; 512]) -> IdSet
        requires { Searched
            (mode_no self.now.setting.now.mode)
            (entries self.now.pair.old.now)
            (entries self.now.pair.new.now)
            (entries self.now.ids.now)
            (entries self.now.sizes.now)
            (Some bad)
            choice.old }
        ensures { Named
            (mode_no self.now.setting.now.mode)
            (entries self.now.pair.old.now)
            (entries self.now.pair.new.now)
            (entries self.now.ids.now)
            (entries self.now.sizes.now)
            bad.round
            (the_fault bad.fault)
            result.words }
    {
        let to = bad.from + usize::from(entry(self.sizes, bad.round - 1));
        let mut subset = IdSet::new();
        for i in bad.from..to {
            let id = usize::from(entry(self.ids, i));
            decide(self.setting, bad.fault, id, choice, &mut subset);
        }
        subset
    }

    // The yes: how many rounds there are, and how many due nodes.
    fn passed(&self) -> Accepted
        ensures rounds { result.rounds ≡ length (entries self.now.sizes.now) }
        ensures dues { result.dues ≡ tally 512 (due (entries self.now.pair.old.now) (entries self.now.pair.new.now)) }
    {
        Accepted {
            rounds: self.sizes.len() / 2,
            dues: due_count(self.setting.old, self.setting.new),
        }
    }

    // The check of the rounds: the first bad one is refused with its named subset, or there is none.
    #[tactic(auto, using(crate::proofs::ReplyLaws::bad_refused))]
    fn check(&self, set: &mut [u8]) -> Result<Accepted, Refusal>
        requires { 64 ≤ length set.old }
        ensures { Checks
            self.now.pair.old.now
            self.now.pair.new.now
            (mode_no self.now.setting.now.mode)
            self.now.ids.now
            self.now.sizes.now
            set.old
            result
            set.new }
    {
        let mut choice = [OLD; 512];
        let Some(bad) = self.first_bad(&mut choice) else {
            return Ok(self.passed());
        };
        let subset = self.named(bad, &mut choice);
        Err(refuse(bad, &subset, set))
    }
}

// The check of a change that the judge has let through: its rounds are checked on the tables of its routes.
fn check_judged(
    old: &[u8],
    new: &[u8],
    mode: u16,
    ids: &[u8],
    sizes: &[u8],
    set: &mut [u8],
) -> Result<Accepted, Refusal>
    requires clear { Clear (ChangeFault old.now new.now mode ids.now sizes.now) }
    requires set { 64 ≤ length set.old }
    ensures { Checks old.now new.now mode ids.now sizes.now set.old result set.new }
{
    // the judge has refused each number that is no mode
    let mode = Mode::try_from(mode)?;
    let pair = Pair { old, new };
    let mut was = [0; 512];
    let mut will = [0; 512];
    let setting = Setting::new(&pair, mode, &mut was, &mut will);
    Sound {
        pair,
        setting: &setting,
        ids,
        sizes,
    }
    .check(set)
}

// Checks anybody's schedule of a change, given as bytes, in a mode: yes, with the number of rounds and of due nodes, exactly
// when no state of any round drops or loops; else the refusal that is given. 16 and 17 write the named subset as eight words to
// the front of `set`; nothing else is changed.
#[tactic(auto, using(crate::proofs::ReplyLaws::short_refused))]
pub fn check(
    old: &[u8],
    new: &[u8],
    mode: u16,
    ids: &[u8],
    sizes: &[u8],
    set: &mut [u8],
) -> Result<Accepted, Refusal>
    ensures { Checks old.now new.now mode ids.now sizes.now set.old result set.new }
{
    if set.len() < 64 {
        return Err(Refusal::Unfit);
    }
    schedule::judge(old, new, mode, ids, sizes)?;
    check_judged(old, new, mode, ids, sizes, set)
}
