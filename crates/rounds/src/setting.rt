// What every test of a round stands on.
ghost use Rattle.std.specs.Prelude.{◌≡◌, length};
ghost use Rattle.house.specs.Numbers.{entries};
ghost use Rattle.routes.specs.Routes.{source};
ghost use Rattle.routes.specs.Rules.{Values};

use crate::mode::Mode;
use graph::Graph;
use routes::pair::Pair;
use routes::rule::next_values;

// The tables of next values of a good pair, lent, its source and the mode.
#[derive(Clone, Copy, Debug, PartialEq, Eq)]
pub struct Setting<'a> {
    pub old: &'a [u16; 512],
    pub new: &'a [u16; 512],
    pub source: usize,
    pub mode: Mode,
    ghost sizes: { (length old.now ≡ 512) × (length new.now ≡ 512) },
}

impl<'a> Setting<'a> {
    // Fills the two lent tables, and gives the setting over them.
    pub fn new(
        pair: &Pair,
        mode: Mode,
        old: &'a mut [u16; 512],
        new: &'a mut [u16; 512],
    ) -> Setting<'a>
        ensures old { Values (entries pair.now.old.now) result.old.now }
        ensures new { Values (entries pair.now.new.now) result.new.now }
        ensures source { result.source ≡ source (entries pair.now.old.now) }
        ensures mode { result.mode ≡ mode }
    {
        *old = next_values(pair.old);
        *new = next_values(pair.new);
        Setting {
            old,
            new,
            source: pair.source(),
            mode,
        }
    }

    // The graph of the two tables, where each node has the choice that it has in `choice`.
    pub fn graph(&self, choice: &'a [u8; 512]) -> Graph<'a>
        ensures old { result.old.now ≡ self.now.old.now }
        ensures new { result.new.now ≡ self.now.new.now }
        ensures choice { result.choice.now ≡ choice.now }
    {
        Graph {
            old: self.old,
            new: self.new,
            choice,
        }
    }
}
