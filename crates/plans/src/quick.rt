// The quick plan: the switches in two rounds, by the sign of their old-order jump.
ghost use Rattle.std.specs.Prelude.{◌≡◌, ◌≤◌, length};
ghost use Rattle.house.specs.Numbers.{entries};
ghost use Rattle.house.specs.Finds.{Finds};
ghost use Rattle.house.specs.Refusals.{Clear};
ghost use Rattle.plans.specs.Replies.{PlanFault, Quicks};
ghost use Rattle.plans.specs.Working.{Added};
ghost use Rattle.plans.specs.QuickParts.{Places, Forward, Back, four_rounds};
ghost use Rattle.rounds.specs.Mode.{mode_no};

use crate::{Draft, Given, NONE, change_at, fit};
use graph::OLD;
use house::{Refusal, entry};
use rounds::mode::Mode;
use rounds::setting::Setting;
use routes::pair::Pair;
use routes::rule::Change;

// No node is on the route.
const NOWHERE: [Option<u8>; 512] = [None; 512];

// The position of each node on the old route, if it is on it; a good route has at most 256 ids.
fn positions(pair: &Pair) -> [Option<u8>; 512]
    ensures { Places (entries pair.now.old.now) result (length (entries pair.now.old.now)) }
{
    let mut at = NOWHERE;
    for i in 0..pair.old.len() / 2 {
        let v = usize::from(entry(pair.old, i));
        at[v] = Some(i as u8);
    }
    at
}

// Marks the nodes whose jump in the order of the old route is positive. One pass from the end of the new route: `next` is the
// position on the old one of the next meeting node, if there is one.
fn forward(pair: &Pair) -> [bool; 512]
    ensures { Forward (entries pair.now.old.now) (entries pair.now.new.now) result 0 }
{
    let at = positions(pair);
    let mut marks = [false; 512];
    let mut next: Option<u8> = None;
    for i in (0..pair.new.len() / 2).rev() {
        let v = usize::from(entry(pair.new, i));
        if let Some(here) = at[v] {
            marks[v] = next.is_some_and(|next| here < next);
            next = Some(here);
        }
    }
    marks
}

// The lowest switch that is marked in neither of two lists of marks.
fn lowest_back(setting: &Setting, first: &[bool; 512], second: &[bool; 512]) -> Option<usize>
    ensures { Finds (Back setting.now.old.now setting.now.new.now first.now second.now) 512 result }
{
    (0..512).find(|&v| change_at(setting, v) == Change::Switch && !first[v] && !second[v])
}

// Writes all rounds of the quick plan: the installs, the marked switches, the other switches, the removes.
fn write_quick(setting: &Setting, marks: &[bool; 512], ids: &mut [u8], sizes: &mut [u8]) -> Given
    requires { (1024 ≤ length ids.old) × (1024 ≤ length sizes.old) }
    ensures { Added (four_rounds setting.now.old.now setting.now.new.now marks.now) ids.old sizes.old 0 0 ids.new sizes.new result.rounds result.count }
{
    let mut draft = Draft {
        choice: [OLD; 512],
        ids,
        sizes,
        given: NONE,
    };
    draft.round(|v| change_at(setting, v) == Change::Install);
    draft.round(|v| change_at(setting, v) == Change::Switch && marks[v]);
    draft.round(|v| change_at(setting, v) == Change::Switch && !marks[v]);
    draft.round(|v| change_at(setting, v) == Change::Remove);
    draft.given
}

// The quick plan of a change that `fit` has let through: it is written, or refused with 19.
fn quick_fit(pair: &Pair, mode: Mode, ids: &mut [u8], sizes: &mut [u8]) -> Result<Given, Refusal>
    requires { Clear (PlanFault pair.now.old.now pair.now.new.now (mode_no mode) ids.old sizes.old) }
    ensures { Quicks pair.now.old.now pair.now.new.now (mode_no mode) ids.old sizes.old result ids.new sizes.new }
{
    let mut was = [0; 512];
    let mut will = [0; 512];
    let setting = Setting::new(pair, mode, &mut was, &mut will);
    let marks = forward(pair);
    let others = forward(&Pair {
        old: pair.new,
        new: pair.old,
    });
    if let Some(back) = lowest_back(&setting, &marks, &others) {
        return Err(Refusal::BothBackward(back));
    }
    Ok(write_quick(&setting, &marks, ids, sizes))
}

// Plans the change from the old route to the new one as `plan` does, with every switch that has a positive old-order jump in
// one round and the rest in a second. After the refusals of `plan` comes 19: a switch that is backward in both orders.
pub fn quick(
    old: &[u8],
    new: &[u8],
    mode: u16,
    ids: &mut [u8],
    sizes: &mut [u8],
) -> Result<Given, Refusal>
    ensures { Quicks old.now new.now mode ids.old sizes.old result ids.new sizes.new }
{
    let mode = fit(old, new, mode, ids, sizes)?;
    let pair = Pair { old, new };
    quick_fit(&pair, mode, ids, sizes)
}
