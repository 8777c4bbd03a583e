// Reading a plan file. The records are gone through once, writing nothing, and copied only where nothing is refused.
ghost use Rattle.planfile.specs.Parts.{Scans, LengthIs, Fine, Ready, Copied};
ghost use Rattle.planfile.specs.Replies.{Reads};

use crate::record::{MODE, NEW_ROUTE, OLD_ROUTE, ROUND, record_at};
use house::{Refusal, entry, put_entry, store};

// What a plan file holds: how many entries the old and the new route have, the mode, and how many schedule ids and rounds there are.
#[derive(Clone, Copy, Debug, PartialEq, Eq)]
pub struct Content {
    pub olds: usize,
    pub news: usize,
    pub mode: u16,
    pub ids: usize,
    pub rounds: usize,
}

// The lengths of the bodies of the old and the new route.
#[derive(Clone, Copy, Debug, PartialEq, Eq)]
struct Bodies {
    old: usize,
    new: usize,
}

// How many schedule ids, and how many rounds.
#[derive(Clone, Copy, Debug, PartialEq, Eq)]
struct Counts {
    ids: usize,
    rounds: usize,
}

// Goes through the records in their order, to the first that is wrong or to the end.
// Kept: each record answer is unpacked by let .. else, a form that document 01 names.
fn go_through(file: &[u8]) -> Result<Bodies, Refusal>
    ensures { Scans file.now result }
{
    // the end comes only where a round may follow, so that the first three `else` are never taken
    let Some(old) = record_at(file, 0, OLD_ROUTE)? else {
        return Err(Refusal::RecordWrong(0));
    };
    let Some(new) = record_at(file, old.next, NEW_ROUTE)? else {
        return Err(Refusal::RecordWrong(old.next));
    };
    let Some(mode) = record_at(file, new.next, MODE)? else {
        return Err(Refusal::RecordWrong(new.next));
    };
    let mut at = mode.next;
    loop {
        let Some(round) = record_at(file, at, ROUND)? else {
            return Ok(Bodies {
                old: old.size,
                new: new.size,
            });
        };
        at = round.next;
    }
}

// Judges how many ids a route has: 2 to 256. `which` is 1 for the old route and 2 for the new.
// Kept: `routes::pair` has this test for a route's bytes; one function for both would be no plainer than these two lines.
fn judge_length(which: usize, ids: usize) -> Result<(), Refusal>
    ensures { LengthIs which ids result }
{
    if ids < 2 || 256 < ids {
        return Err(Refusal::RouteLength(which));
    }
    Ok(())
}

// Copies the rounds of a file from the offset `from` on: their ids behind each other, and the size of each.
// Only the lengths are read again: `go_through` has judged the records.
fn copy_rounds(file: &[u8], from: usize, ids: &mut [u8], sizes: &mut [u8]) -> Counts
    requires { Ready file.now from ids.old sizes.old }
    ensures { Copied file.now from ids.old sizes.old result ids.new sizes.new }
{
    let mut at = from;
    let mut copied = Counts { ids: 0, rounds: 0 };
    while at < file.len() {
        let size = entry(&file[at..], 0);
        let start = at + 4;
        let end = start + usize::from(size);
        store(ids, 2 * copied.ids, &file[start..end]);
        put_entry(sizes, copied.rounds, size / 2);
        copied.ids += usize::from(size / 2);
        copied.rounds += 1;
        at = end;
    }
    copied
}

// Reads a file that has no wrong record: the lengths of the routes are judged, and then all is copied.
fn copy_all(
    file: &[u8],
    bodies: Bodies,
    old: &mut [u8],
    new: &mut [u8],
    ids: &mut [u8],
    sizes: &mut [u8],
) -> Result<Content, Refusal>
    requires { Fine file.now bodies.old bodies.new old.old new.old ids.old sizes.old }
    ensures { Reads file.now old.old new.old ids.old sizes.old result old.new new.new ids.new sizes.new }
{
    let olds = bodies.old / 2;
    let news = bodies.new / 2;
    judge_length(1, olds)?;
    judge_length(2, news)?;
    let old_start = 4;
    let old_end = old_start + bodies.old;
    let new_start = old_end + 4;
    let new_end = new_start + bodies.new;
    let mode_start = new_end + 4;
    store(old, 0, &file[old_start..old_end]);
    store(new, 0, &file[new_start..new_end]);
    let mode = entry(&file[mode_start..], 0);
    let copied = copy_rounds(file, mode_start + 2, ids, sizes);
    Ok(Content {
        olds,
        news,
        mode,
        ids: copied.ids,
        rounds: copied.rounds,
    })
}

// Reads a plan file into lent memory: the routes, the schedule ids and the sizes of the rounds. Refusals 1 to 4, each over the
// whole file before the next; a refusal writes nothing.
pub fn read(
    file: &[u8],
    old: &mut [u8],
    new: &mut [u8],
    ids: &mut [u8],
    sizes: &mut [u8],
) -> Result<Content, Refusal>
    ensures { Reads file.now old.old new.old ids.old sizes.old result old.new new.new ids.new sizes.new }
{
    if old.len() < 512 || new.len() < 512 || ids.len() < 4096 || sizes.len() < 2048 {
        return Err(Refusal::Unfit);
    }
    if 4092 < file.len() {
        return Err(Refusal::FileLong);
    }
    let bodies = go_through(file)?;
    copy_all(file, bodies, old, new, ids, sizes)
}
