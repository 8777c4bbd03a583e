// The two modes.
ghost use Rattle.rounds.specs.Mode.{ModeOf};

use house::Refusal;

// What counts as a loop.
#[derive(Clone, Copy, Debug, PartialEq, Eq)]
pub enum Mode {
    // a loop anywhere
    Strong,
    // one that a packet from the source can come into
    Relaxed,
}

// 0 is strong, 1 relaxed; any other number is refused.
impl TryFrom<u16> for Mode {
    type Error = Refusal;

    ghost try_from_gives = { ModeOf };

    fn try_from(number: u16) -> Result<Mode, Refusal> {
        match number {
            0 => Ok(Mode::Strong),
            1 => Ok(Mode::Relaxed),
            _ => Err(Refusal::ModeOver),
        }
    }
}
