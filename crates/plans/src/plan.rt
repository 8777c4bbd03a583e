// One plan per change and mode.
ghost use Rattle.std.specs.Prelude.{◌≡◌, ◌≤◌, length};
ghost use Rattle.house.specs.Numbers.{entries};
ghost use Rattle.plans.specs.Replies.{Plans};
ghost use Rattle.plans.specs.Working.{Fits, Seen, Free, Tried, Lined, Passed, Closing, Merged};
ghost use Rattle.plans.specs.Working.{Backward, Written};
ghost use Rattle.rounds.specs.Mode.{mode_no};

use crate::{Draft, Given, NONE, change_at, fit};
use graph::{EITHER, Graph, OLD};
use house::{Refusal, entry};
use rounds::mode::Mode;
use rounds::setting::Setting;
use routes::pair::Pair;
use routes::rule::Change;

// The switches that wait, in the order in which they are tried: the first `many` of `nodes`.
// Kept: an array with a length, since there is no heap; 256 is the most.
#[derive(Drop)]
struct Waiting {
    nodes: [u16; 256],
    many: usize,
}

impl Waiting {
    // Makes the switches those that wait, from the destination backward along the new route.
    fn fill(&mut self, setting: &Setting, pair: &Pair)
        requires { length self.old.nodes ≡ 256 }
        ensures { Backward setting.now.old.now setting.now.new.now (entries pair.now.new.now) 0 self.new.nodes self.new.many }
    {
        self.many = 0;
        for i in (0..pair.new.len() / 2).rev() {
            let id = entry(pair.new, i);
            if change_at(setting, usize::from(id)) == Change::Switch {
                self.nodes[self.many] = id;
                self.many += 1;
            }
        }
    }
}

// Whether a closed path lies among the nodes that `more` marks and `seen` does not. Where there is no such node there is no
// search.
fn closes(graph: &Graph, seen: &[bool; 514], more: &[bool; 514]) -> bool
    ensures { Closing graph.now.old.now graph.now.new.now graph.now.choice.now seen.now more.now result }
{
    let mut fresh = [false; 512];
    for v in 0..512 {
        // Kept: `&` and not `&&`, which would be two branches; so below with `|`.
        fresh[v] = more[v] & !seen[v];
    }
    fresh.contains(&true) && graph.cyclic(&fresh)
}

// Marks in `seen` what `more` marks too.
fn merge(seen: &mut [bool; 514], more: &[bool; 514])
    ensures { Merged seen.old more.now seen.new }
{
    for v in 0..514 {
        seen[v] = seen[v] | more[v];
    }
}

// Whether the node v may join the present round, which passes without it. In strong mode it may if no path leads from its new
// next value back to it. In relaxed mode a node that is not reached may join; one that is may, if no path leads from its
// new next value back to it or to a closed path that was not reached before, and what is reached grows.
fn may_join(setting: &Setting, choice: &[u8; 512], seen: &mut [bool; 514], v: usize) -> bool
    requires free { Free choice.now v }
    requires fits { Fits (mode_no setting.now.mode) setting.now.old.now setting.now.new.now choice.now setting.now.source }
    requires marks { Seen (mode_no setting.now.mode) setting.now.old.now setting.now.new.now choice.now setting.now.source seen.old }
    ensures { Tried (mode_no setting.now.mode) setting.now.old.now setting.now.new.now choice.now setting.now.source v result seen.new }
{
    let w = usize::from(setting.new[v]);
    let graph = setting.graph(choice);
    if setting.mode == Mode::Strong {
        return !graph.leads(w, v);
    }
    if !seen[v] {
        return true;
    }
    let more = graph.reach(w);
    if more[v] || closes(&graph, seen, &more) {
        return false;
    }
    merge(seen, &more);
    true
}

// In relaxed mode, the marks of what is reached from the source; strong mode needs none.
fn glance(setting: &Setting, choice: &[u8; 512]) -> [bool; 514]
    ensures { Seen (mode_no setting.now.mode) setting.now.old.now setting.now.new.now choice.now setting.now.source result }
{
    match setting.mode {
        Mode::Strong => [false; 514],
        Mode::Relaxed => setting.graph(choice).reach(setting.source),
    }
}

// One pass over the switches that wait, in their order: each joins the present round if it may, the others go on waiting.
fn pass(setting: &Setting, choice: &mut [u8; 512], waiting: &mut Waiting)
    requires lined { Lined choice.old waiting.old.nodes 0 waiting.old.many }
    requires fits { Fits (mode_no setting.now.mode) setting.now.old.now setting.now.new.now choice.old setting.now.source }
    ensures { Passed
        (mode_no setting.now.mode)
        setting.now.old.now
        setting.now.new.now
        setting.now.source
        choice.old
        waiting.old.nodes
        waiting.old.many
        choice.new
        waiting.new.nodes
        waiting.new.many }
{
    let mut seen = glance(setting, choice);
    let mut kept = 0;
    for i in 0..waiting.many {
        let id = waiting.nodes[i];
        let v = usize::from(id);
        if may_join(setting, choice, &mut seen, v) {
            choice[v] = EITHER;
        } else {
            waiting.nodes[kept] = id;
            kept += 1;
        }
    }
    waiting.many = kept;
}

// Writes all rounds of the plan of a good pair: the installs, the rounds of switches, the removes. While some switches wait, one
// pass over them makes a round. The first switch of a pass always joins, so that fewer wait after each.
fn write_plan(pair: &Pair, mode: Mode, ids: &mut [u8], sizes: &mut [u8]) -> Given
    requires { (1024 ≤ length ids.old) × (1024 ≤ length sizes.old) }
    ensures { Written
        (mode_no mode)
        (entries pair.now.old.now)
        (entries pair.now.new.now)
        ids.old
        sizes.old
        ids.new
        sizes.new
        result.rounds
        result.count }
{
    let mut was = [0; 512];
    let mut will = [0; 512];
    let setting = Setting::new(pair, mode, &mut was, &mut will);
    let mut draft = Draft {
        choice: [OLD; 512],
        ids,
        sizes,
        given: NONE,
    };
    draft.round(|v| change_at(&setting, v) == Change::Install);
    let mut waiting = Waiting {
        nodes: [0; 256],
        many: 0,
    };
    waiting.fill(&setting, pair);
    while waiting.many > 0 {
        pass(&setting, &mut draft.choice, &mut waiting);
        draft.write_round();
    }
    draft.round(|v| change_at(&setting, v) == Change::Remove);
    draft.given
}

// Plans the change from the old route to the new one, given as bytes, in this mode (0 strong, 1 relaxed): writes the ids of the
// rounds, all rounds joined, and their sizes, and answers how many of both; or the refusal that is given, and then nothing is
// written.
pub fn plan(
    old: &[u8],
    new: &[u8],
    mode: u16,
    ids: &mut [u8],
    sizes: &mut [u8],
) -> Result<Given, Refusal>
    ensures { Plans old.now new.now mode ids.old sizes.old result ids.new sizes.new }
{
    let mode = fit(old, new, mode, ids, sizes)?;
    let pair = Pair { old, new };
    Ok(write_plan(&pair, mode, ids, sizes))
}
