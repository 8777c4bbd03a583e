// Which fault some state of a round shows. By the last exit law a path or a closed path, by the steps that the round's choice
// allows, tells it; one search each finds them.
ghost use Rattle.graph.specs.Search.{Reached};
ghost use Rattle.rounds.specs.Mode.{mode_no};
ghost use Rattle.rounds.specs.Working.{Leads, the_fault, Says, Alive, Tells};

use crate::mode::Mode;
use crate::setting::Setting;
use std::array;

// What a state can show.
#[derive(Clone, Copy, Debug, PartialEq, Eq)]
pub enum Fault {
    Drop,
    Loop,
}

// The nodes whose closed paths count: all in strong mode; in relaxed mode those that a path from the source leads to.
fn alive(seen: &[bool; 514], mode: Mode) -> [bool; 512]
    ensures { Alive (mode_no mode) seen.now result }
{
    match mode {
        Mode::Strong => [true; 512],
        Mode::Relaxed => array::from_fn(|v| seen[v]),
    }
}

impl Setting<'_> {
    // Whether some state that the choice allows shows this fault, in this mode. `seen` is what a search from the source reached.
    fn leads(&self, choice: &[u8; 512], seen: &[bool; 514], fault: Fault) -> bool
        requires { Reached self.now.old.now self.now.new.now choice.now self.now.source seen.now }
        ensures { Says (Leads (the_fault fault) (mode_no self.now.mode) self.now.old.now self.now.new.now choice.now self.now.source) result }
    {
        match fault {
            Fault::Drop => seen[512],
            Fault::Loop => self.graph(choice).cyclic(&alive(seen, self.mode)),
        }
    }

    // What the states that the choice allows show, in this mode. One search from the source serves the drop and the relaxed loop.
    pub(crate) fn first_shown(&self, choice: &[u8; 512]) -> Option<Fault>
        ensures { Tells (mode_no self.now.mode) self.now.old.now self.now.new.now choice.now self.now.source result }
    {
        let seen = self.graph(choice).reach(self.source);
        if self.leads(choice, &seen, Fault::Drop) {
            return Some(Fault::Drop);
        }
        if self.leads(choice, &seen, Fault::Loop) {
            return Some(Fault::Loop);
        }
        None
    }

    // Whether some state that the choice allows shows this fault, in this mode.
    pub(crate) fn shows(&self, choice: &[u8; 512], fault: Fault) -> bool
        ensures { Says (Leads (the_fault fault) (mode_no self.now.mode) self.now.old.now self.now.new.now choice.now self.now.source) result }
    {
        let seen = self.graph(choice).reach(self.source);
        self.leads(choice, &seen, fault)
    }
}
