// Writing a plan file.
ghost use Rattle.planfile.specs.Parts.{RecordRoom, PutRecord, RoundsRoom, PutRounds, Writable, PutFile};
ghost use Rattle.planfile.specs.Replies.{Writes};

use crate::record::{MODE, NEW_ROUTE, OLD_ROUTE, ROUND};
use house::{Refusal, entry, store};
use rounds::schedule;

// Stores a record at `at`, its length counting the body only; gives the offset behind it.
fn put_record(file: &mut [u8], at: usize, kind: u16, body: &[u8]) -> usize
    requires { RecordRoom file.old at body.now }
    ensures { PutRecord file.old at kind body.now result file.new }
{
    let size = body.len() as u16;
    let start = at + 4;
    let [a, b] = size.to_le_bytes();
    let [c, d] = kind.to_le_bytes();
    store(file, at, &[a, b, c, d]);
    store(file, start, body);
    start + body.len()
}

// Stores a record for each round from `at` on; gives the offset behind them. `from` is the round's first byte of the ids.
fn put_rounds(file: &mut [u8], at: usize, ids: &[u8], sizes: &[u8]) -> usize
    requires { RoundsRoom file.old at ids.now sizes.now }
    ensures { PutRounds file.old at ids.now sizes.now result file.new }
{
    let mut next = at;
    let mut from = 0;
    for t in 0..sizes.len() / 2 {
        let to = from + 2 * usize::from(entry(sizes, t));
        next = put_record(file, next, ROUND, &ids[from..to]);
        from = to;
    }
    next
}

// Stores the plan file of a sound change at the front; gives its length.
fn put_file(old: &[u8], new: &[u8], mode: u16, ids: &[u8], sizes: &[u8], file: &mut [u8]) -> usize
    requires { Writable old.now new.now mode ids.now sizes.now file.old }
    ensures { PutFile old.now new.now mode ids.now sizes.now file.old result file.new }
{
    let second = put_record(file, 0, OLD_ROUTE, old);
    let third = put_record(file, second, NEW_ROUTE, new);
    let rounds = put_record(file, third, MODE, &mode.to_le_bytes());
    put_rounds(file, rounds, ids, sizes)
}

// Writes the plan file of a change into lent memory. Refusals 1 and 4 to 14; a refusal writes nothing.
pub fn write(
    old: &[u8],
    new: &[u8],
    mode: u16,
    ids: &[u8],
    sizes: &[u8],
    file: &mut [u8],
) -> Result<usize, Refusal>
    ensures { Writes old.now new.now mode ids.now sizes.now file.old result file.new }
{
    if file.len() < 4092 {
        return Err(Refusal::Unfit);
    }
    schedule::judge(old, new, mode, ids, sizes)?;
    Ok(put_file(old, new, mode, ids, sizes, file))
}
