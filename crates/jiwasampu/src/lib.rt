// The calls for the C controller, and nothing else: each passes its bytes on and packs the reply into four 16-bit lanes,
// lowest first: number, where, place, node. `include/jiwasampu.h` declares them.
#![tactic(auto)]

ghost use Rattle.std.specs.Prelude.{◌<◌, min, ◌≡◌};
ghost use Rattle.jiwasampu.specs.Lanes.{lanes, refusal_lanes, plan_lanes, CheckCall, PlanCall, QuickCall, WalkCall};

use house::{Refusal, Told};
use plans::Given;
use routes::walk::Walked;

// A number as a lane: 65,535 where it does not fit.
fn lane(x: usize) -> u64
    ensures { (result ≡ min x 65535) × (result < 65536) }
{
    (x as u64).min(65535)
}

// Four lanes as one number.
fn pack(a: usize, b: usize, c: usize, d: usize) -> u64
    ensures { result ≡ lanes a b c d }
{
    lane(a) + 65536 * (lane(b) + 65536 * (lane(c) + 65536 * lane(d)))
}

// A refusal's lanes; its node lane is 0.
fn refused(r: Refusal) -> u64
    ensures { result ≡ refusal_lanes r }
{
    let told = Told::from(r);
    pack(told.number, told.site, told.place, 0)
}

// The lanes of a planner's reply.
fn planned(reply: Result<Given, Refusal>) -> u64
    ensures { result ≡ plan_lanes reply }
{
    match reply {
        Ok(given) => pack(0, given.rounds, given.count, 0),
        Err(r) => refused(r),
    }
}

// Checks anybody's schedule: number 0 with the rounds and the due nodes, or the refusal. 16 and 17 write the subset's eight
// words to the front of `set`; nothing else is changed.
#[unsafe(no_mangle)]
pub extern "C" fn jiwasampu_check(
    old: &[u8],
    new: &[u8],
    mode: u16,
    ids: &[u8],
    sizes: &[u8],
    set: &mut [u8],
) -> u64
    ensures { CheckCall old.now new.now mode ids.now sizes.now set.old result set.new }
{
    match rounds::check::check(old, new, mode, ids, sizes, set) {
        Ok(accepted) => pack(0, accepted.rounds, accepted.dues, 0),
        Err(r) => refused(r),
    }
}

// Plans a change: number 0 with the rounds and the ids written, or the refusal. The ids go to the front of `ids`, the sizes of
// the rounds to the front of `sizes`; a refusal changes nothing.
#[unsafe(no_mangle)]
pub extern "C" fn jiwasampu_plan(
    old: &[u8],
    new: &[u8],
    mode: u16,
    ids: &mut [u8],
    sizes: &mut [u8],
) -> u64
    ensures { PlanCall old.now new.now mode ids.old sizes.old result ids.new sizes.new }
{
    planned(plans::plan::plan(old, new, mode, ids, sizes))
}

// Plans a change with the switches in at most two rounds, or refuses it: as `jiwasampu_plan`, and with 19 too.
#[unsafe(no_mangle)]
pub extern "C" fn jiwasampu_quick(
    old: &[u8],
    new: &[u8],
    mode: u16,
    ids: &mut [u8],
    sizes: &mut [u8],
) -> u64
    ensures { QuickCall old.now new.now mode ids.old sizes.old result ids.new sizes.new }
{
    planned(plans::quick::quick(old, new, mode, ids, sizes))
}

// Walks one state: number 0 with 0 arrived, 1 dropped or 2 looped, the hops and the node, or the refusal.
#[unsafe(no_mangle)]
pub extern "C" fn jiwasampu_walk(old: &[u8], new: &[u8], set: &[u8]) -> u64
    ensures { WalkCall old.now new.now set.now result }
{
    match routes::walk::walk(old, new, set) {
        Ok(Walked::Arrived(hops)) => pack(0, 0, hops, 0),
        Ok(Walked::Dropped(node, hops)) => pack(0, 1, hops, node),
        Ok(Walked::Looped(node, hops)) => pack(0, 2, hops, node),
        Err(r) => refused(r),
    }
}
