// House lists and sets, and the refusals that every part gives.
//
// Lists of ids and sizes go in and out as bytes, two to an entry, little-endian; sets of ids as eight words of 64 bits,
// which are 64 bytes, little-endian, where they cross a call. Each function here takes any bytes and any number.
#![tactic(auto)]

ghost use Rattle.std.specs.Prelude.{ℕ, Some, ◌≡◌, true, ◌/◌, ◌<◌, ◌≤◌, length, get_or, replicate};
ghost use Rattle.std.proofs.lemmas.List.Edits.{sets};
ghost use Rattle.house.specs.Numbers.{le, bytes, numbers, entries, words, eight, put_number};
ghost use Rattle.house.specs.Sets.{has, put, size};
ghost use Rattle.house.specs.Finds.{Finds};
ghost use Rattle.house.specs.Refusals.{IsTold, told_text};

use std::{array, fmt};

// The refusals, in the order of their numbers, 1 to 19. A route is 1 for the old one and 2 for the new; rounds count from
// 1, indexes from 0.
// Kept: the route, the end and the round 0 of `NotDue` are numbers, as the definitions `site` and `place` have them.
#[derive(Clone, Copy, Debug, PartialEq, Eq)]
pub enum Refusal {
    // 1: a lent output is too short, a given set isn't eight words, or a byte input isn't whole entries
    Unfit,
    // 2: a file over 4,092 bytes
    FileLong,
    // 3: a file record is wrong, at its offset
    RecordWrong(usize),
    // 4: a route not 2 to 256 long
    RouteLength(usize),
    // 5: a route id over 511: route, index
    RouteId(usize, usize),
    // 6: an id again in one route: route, index of the first repeat
    RouteRepeat(usize, usize),
    // 7: ends differ: 0 first id, else 1
    EndsDiffer(usize),
    // 8: mode over 1
    ModeOver,
    // 9: round sizes don't add up to the ids given
    SizesSum,
    // 10: an empty round
    RoundEmpty(usize),
    // 11: an id not above the one before it in its round: round, index
    NotRising(usize, usize),
    // 12: an id not due: round, index; or a set's lowest bit not due: 0, the id
    NotDue(usize, usize),
    // 13: an id already in an earlier round: round, index
    Again(usize, usize),
    // 14: a due id is in no round: the lowest such id
    Missing(usize),
    // 15: the round begins in a faulty state
    BeginsFaulty(usize),
    // 16: a drop: round, size of the subset
    Drop(usize, usize),
    // 17: a loop: round, size of the subset
    Loop(usize, usize),
    // 18: the node asked for has no jump
    NoJump(usize),
    // 19: a switch that goes backward in both orders: the lowest such id
    BothBackward(usize),
}

// A refusal's number, where (`site`) and place.
#[derive(Clone, Copy, Debug, PartialEq, Eq)]
pub struct Told {
    pub number: usize,
    pub site: usize,
    pub place: usize,
}

// The three numbers in decimal, a space between them.
impl fmt::Display for Told {
    ghost output = { λ t. Some (told_text t) };

    fn fmt<W: fmt::Write>(&self, f: &mut fmt::Formatter<W>) -> fmt::Result {
        write!(f, "{} {} {}", self.number, self.site, self.place)
    }
}

// The bytes of number `i` of `b`, where each has `W` bytes; zeros where it has none.
fn bytes_at<const W: usize>(b: &[u8], i: usize) -> [u8; W]
    requires { 0 < W }
    ensures { le result ≡ get_or (numbers W (length b.now / W) b.now) i 0 }
{
    b.as_chunks().0.get(i).copied().unwrap_or([0; W])
}

// Entry `i` of the house list `b`, 0 where it has none: two bytes, the lower first.
pub fn entry(b: &[u8], i: usize) -> u16
    ensures { result ≡ get_or (entries b.now) i 0 }
{
    u16::from_le_bytes(bytes_at(b, i))
}

// Word `i` of `b`, 0 where it has none: eight bytes, the lowest first.
pub fn word(b: &[u8], i: usize) -> u64
    ensures { result ≡ get_or (words b.now) i 0 }
{
    u64::from_le_bytes(bytes_at(b, i))
}

// Makes `x` the bytes of number `i` of `b`, where each has `W` bytes; where `b` has no such number nothing changes.
fn put_bytes<const W: usize>(b: &mut [u8], i: usize, x: &[u8; W])
    requires { 0 < W }
    ensures { (n : ℕ) → x.now ≡ bytes W n → b.new ≡ put_number W b.old i n }
{
    if i < b.len() / W {
        b[W * i..W * i + W].copy_from_slice(x);
    }
}

// Makes entry `i` of `b` the number `x`; where `b` has no such entry nothing changes.
pub fn put_entry(b: &mut [u8], i: usize, x: u16)
    ensures { b.new ≡ put_number 2 b.old i x }
{
    put_bytes::<2>(b, i, &x.to_le_bytes());
}

// Makes word `i` of `b` the number `x`; where `b` has no such word nothing changes.
pub fn put_word(b: &mut [u8], i: usize, x: u64)
    ensures { b.new ≡ put_number 8 b.old i x }
{
    put_bytes::<8>(b, i, &x.to_le_bytes());
}

// Copies the bytes of `from` into `to`, from the offset `at` on; those for which `to` is too short are left out.
// Kept: a loop and not `copy_from_slice`, which calls memmove, also for no bytes; no archive for C needs that name otherwise.
#[tactic(auto, using(crate::proofs::StoreLaws::sets_more, crate::proofs::StoreLaws::sets_part))]
pub fn store(to: &mut [u8], at: usize, from: &[u8])
    ensures { to.new ≡ sets to.old at from.now }
{
    let n = from.len().min(to.len().saturating_sub(at));
    for i in 0..n {
        to[at + i] = from[i];
    }
}

// A set of ids: id `i` is bit `i % 64` of word `i / 64`. From 512 on no id is in it.
#[derive(Clone, Copy, Debug, PartialEq, Eq)]
pub struct IdSet {
    pub words: [u64; 8],
}

impl IdSet {
    // The set with no id.
    pub fn new() -> IdSet
        ensures { result.words ≡ replicate 8 0 }
    {
        IdSet { words: [0; 8] }
    }

    // The set that the first eight words of `b` are; a word that is not there is 0.
    pub fn from_bytes(b: &[u8]) -> IdSet
        ensures { result.words ≡ eight (words b.now) }
    {
        IdSet {
            words: array::from_fn(|k| word(b, k)),
        }
    }

    // Whether `id` is in the set.
    pub fn contains(&self, id: usize) -> bool
        ensures { result ≡ has self.now.words id }
    {
        id < 512 && (self.words[id / 64] >> (id % 64)) % 2 == 1
    }

    // Puts `id` into the set; from 512 on nothing changes.
    pub fn insert(&mut self, id: usize)
        ensures { self.new.words ≡ put self.old.words id }
    {
        if id < 512 {
            self.words[id / 64] |= 1 << (id % 64);
        }
    }

    // How many ids are in the set: the ones of its words.
    pub fn len(&self) -> usize
        ensures { result ≡ size self.now.words }
    {
        self.words.iter().map(|w| w.count_ones() as usize).sum()
    }

    // The lowest id in the set that is not below `from`: the words in order, from the one that `from` lies in, to the first
    // that has a one there.
    pub fn first_from(&self, from: usize) -> Option<usize>
        ensures { Finds (λ k. (from ≤ k) × (has self.now.words k ≡ true)) 512 result }
    {
        for k in from / 64..8 {
            let at = from.max(64 * k);
            let zeros = (self.words[k] >> (at % 64)).trailing_zeros() as usize;
            if zeros < 64 - at % 64 {
                return Some(at + zeros);
            }
        }
        None
    }
}

// The three numbers of a refusal, one case for each.
impl From<Refusal> for Told {
    ghost from_gives = { IsTold };

    fn from(r: Refusal) -> Told {
        let (number, site, place) = match r {
            Refusal::Unfit => (1, 0, 0),
            Refusal::FileLong => (2, 0, 0),
            Refusal::RecordWrong(o) => (3, 0, o),
            Refusal::RouteLength(w) => (4, w, 0),
            Refusal::RouteId(w, i) => (5, w, i),
            Refusal::RouteRepeat(w, i) => (6, w, i),
            Refusal::EndsDiffer(p) => (7, 0, p),
            Refusal::ModeOver => (8, 0, 0),
            Refusal::SizesSum => (9, 0, 0),
            Refusal::RoundEmpty(t) => (10, t, 0),
            Refusal::NotRising(t, i) => (11, t, i),
            Refusal::NotDue(t, i) => (12, t, i),
            Refusal::Again(t, i) => (13, t, i),
            Refusal::Missing(v) => (14, 0, v),
            Refusal::BeginsFaulty(t) => (15, t, 0),
            Refusal::Drop(t, m) => (16, t, m),
            Refusal::Loop(t, m) => (17, t, m),
            Refusal::NoJump(v) => (18, 0, v),
            Refusal::BothBackward(v) => (19, 0, v),
        };
        Told {
            number,
            site,
            place,
        }
    }
}
