// Records of a plan file: length first, two bytes little-endian, counting the body only; then a kind of two bytes; then the
// body.
ghost use Rattle.planfile.specs.Replies.{RecordIs};

use house::{Refusal, entry};

// The kinds of records.
// Kept: numbers, and no enum: `record_at` promises its answer (`RecordIs`) for every number as the kind.
pub const OLD_ROUTE: u16 = 1;

pub const NEW_ROUTE: u16 = 2;

pub const MODE: u16 = 3;

pub const ROUND: u16 = 4;

// A record in a file: where its body starts, the body's length, and the next record's offset.
#[derive(Clone, Copy, Debug, PartialEq, Eq)]
pub struct Record {
    // Kept: `RecordIs` promises it.
    pub start: usize,
    pub size: usize,
    pub next: usize,
}

// The record at `at`, where one of the kind `kind` is expected; None at the end of the file, where a round may follow but none
// does. A record is wrong where the file ends within its head, its length is odd or goes past the file, its kind is another, or
// a mode's body is not one number. Nothing is added to `at` before it is known to be within the file.
pub fn record_at(file: &[u8], at: usize, kind: u16) -> Result<Option<Record>, Refusal>
    ensures { RecordIs file.now at kind result }
{
    let n = file.len();
    if kind == ROUND && at == n {
        return Ok(None);
    }
    if n < 4 || n - 4 < at {
        return Err(Refusal::RecordWrong(at));
    }
    let head = &file[at..];
    let size = usize::from(entry(head, 0));
    if size % 2 != 0 || n < at + size + 4 {
        return Err(Refusal::RecordWrong(at));
    }
    if entry(head, 1) != kind || (kind == MODE && size != 2) {
        return Err(Refusal::RecordWrong(at));
    }
    let start = at + 4;
    Ok(Some(Record {
        start,
        size,
        next: start + size,
    }))
}
