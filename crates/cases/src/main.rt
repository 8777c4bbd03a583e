// Answers requests about pairs of routes, to run the library on cases whose replies are written down, and on random ones.
//
// A request is 2,048 bytes on standard input. Its first five entries are what is asked (1 the judgement, 2 the jumps, 3 the
// walk), a node, and the byte lengths of the old route, the new route and the set, which begin at the bytes 16, 640 and
// 1,264. Each request is answered by a line on standard output.
#![tactic(auto)]

use house::{Refusal, Told, entry};
use routes::jump::{NodeJumps, jumps, letter};
use routes::pair::judge;
use routes::walk::{Walked, walk};
use std::fmt::Display;
use std::io::Write;

// Answers whole requests, until one is missing; a million at most, so that the program ends.
fn main(rt: HostRuntime) {
    let mut frame = [0u8; 2048];
    for _ in 0..1000000usize {
        let (got, _) = streams::read_full(&mut rt.stdin(), &mut frame);
        if got < 2048 {
            return;
        }
        answer(&mut rt.stdout(), &frame);
    }
}

// Answers one request.
fn answer<W: Write>(out: &mut W, frame: &[u8]) {
    let node = entry(frame, 1);
    let old = part(frame, 16, entry(frame, 2));
    let new = part(frame, 640, entry(frame, 3));
    let set = part(frame, 1264, entry(frame, 4));
    // Kept: a number, since an enum would need a conversion as long as this match.
    match entry(frame, 0) {
        1 => match judge(old, new) {
            Ok(()) => say(out, "good"),
            Err(r) => refused(out, r),
        },
        2 => match jumps(old, new, node) {
            Ok(by) => both_jumps(out, by),
            Err(r) => refused(out, r),
        },
        _ => match walk(old, new, set) {
            Ok(Walked::Arrived(hops)) => reply(out, "arrived", &[hops]),
            Ok(Walked::Dropped(node, hops)) => reply(out, "dropped", &[node, hops]),
            Ok(Walked::Looped(node, hops)) => reply(out, "looped", &[node, hops]),
            Err(r) => refused(out, r),
        },
    }
    say(out, "\n");
}

// The `size` bytes of a request from `at`; none where it has not as many.
fn part(frame: &[u8], at: usize, size: u16) -> &[u8] {
    let tail = frame.get(at..).unwrap_or(&[]);
    tail.get(..usize::from(size)).unwrap_or(&[])
}

// Two jumps, and their letters.
fn both_jumps<W: Write>(out: &mut W, by: NodeJumps) {
    say(out, "jumps");
    signed(out, by.old_order);
    signed(out, by.new_order);
    say(out, " ");
    say(out, char::from(letter(by.old_order)));
    say(out, char::from(letter(by.new_order)));
}

// A jump, with its sign where it goes backward.
fn signed<W: Write>(out: &mut W, jump: i32) {
    say(out, if jump < 0 { " -" } else { " " });
    say(out, jump.unsigned_abs());
}

fn refused<W: Write>(out: &mut W, r: Refusal) {
    let told = Told::from(r);
    reply(out, "NO", &[told.number, told.site, told.place]);
}

// A word, and numbers after it.
fn reply<W: Write>(out: &mut W, word: &str, numbers: &[usize]) {
    say(out, word);
    for n in numbers {
        say(out, " ");
        say(out, n);
    }
}

// Each piece of a line is a write of its own, so that a write that fails loses its piece alone.
fn say<W: Write, T: Display + Drop>(out: &mut W, piece: T) {
    let _ = write!(out, "{piece}");
}
