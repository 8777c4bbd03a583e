// What the benchmark calls beside the C calls: the two searches, the reader and the writer. Each passes its arguments on; the
// replies of the reader and the writer are packed into one number.
#![tactic(auto)]

ghost use Rattle.std.specs.Prelude.{min, ◌≡◌};
ghost use Rattle.graph.specs.Search.{Reached, Cyclic};
ghost use Rattle.bench_calls.specs.Packed.{packed, refusal_packed, ReadCall, WriteCall};

use graph::Graph;
use house::{Refusal, Told};

// Writes the marks of what is reached from start.
#[unsafe(no_mangle)]
pub extern "C" fn bench_reach(
    old: &[u16; 512],
    new: &[u16; 512],
    choice: &[u8; 512],
    start: usize,
    marks: &mut [bool; 514],
)
    ensures { Reached old.now new.now choice.now start marks.new }
{
    *marks = Graph { old, new, choice }.reach(start);
}

// Whether a closed path lies within the set.
#[unsafe(no_mangle)]
pub extern "C" fn bench_cyclic(
    old: &[u16; 512],
    new: &[u16; 512],
    choice: &[u8; 512],
    alive: &[bool; 512],
) -> bool
    ensures { Cyclic old.now new.now choice.now alive.now result }
{
    Graph { old, new, choice }.cyclic(alive)
}

// A number, or the most that there is room for.
// Kept: `lane`, `pack` and `refused` of `jiwasampu` are like these; a crate for both would be no plainer than the few lines.
fn cap(x: usize, most: u64) -> u64
    ensures { result ≡ min x most }
{
    (x as u64).min(most)
}

// Six numbers as one.
fn pack(a: usize, b: usize, c: usize, d: usize, e: usize, f: usize) -> u64
    ensures { result ≡ packed a b c d e f }
{
    let high = cap(d, 4095) + 4096 * (cap(e, 4095) + 4096 * cap(f, 65535));
    cap(a, 15) + 16 * (cap(b, 1023) + 1024 * (cap(c, 1023) + 1024 * high))
}

// A refusal: its number, where and place.
fn refused(r: Refusal) -> u64
    ensures { result ≡ refusal_packed r }
{
    let told = Told::from(r);
    pack(told.number, told.site, 0, told.place, 0, 0)
}

// Reads a plan file.
#[unsafe(no_mangle)]
pub extern "C" fn bench_read(
    file: &[u8],
    old: &mut [u8],
    new: &mut [u8],
    ids: &mut [u8],
    sizes: &mut [u8],
) -> u64
    ensures { ReadCall file.now old.old new.old ids.old sizes.old result old.new new.new ids.new sizes.new }
{
    match planfile::read::read(file, old, new, ids, sizes) {
        Ok(c) => pack(0, c.olds, c.news, c.ids, c.rounds, usize::from(c.mode)),
        Err(r) => refused(r),
    }
}

// Writes a plan file.
#[unsafe(no_mangle)]
pub extern "C" fn bench_write(
    old: &[u8],
    new: &[u8],
    mode: u16,
    ids: &[u8],
    sizes: &[u8],
    file: &mut [u8],
) -> u64
    ensures { WriteCall old.now new.now mode ids.now sizes.now file.old result file.new }
{
    match planfile::write::write(old, new, mode, ids, sizes, file) {
        Ok(size) => pack(0, 0, 0, size, 0, 0),
        Err(r) => refused(r),
    }
}
