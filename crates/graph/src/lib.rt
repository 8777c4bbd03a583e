#![tactic(auto)]

ghost use Rattle.std.specs.Prelude.{◌≡◌, ◌+◌, ◌<◌, ◌≤◌, true, false, get_or, set, ◌⊎◌, IsNone, IfSome};
ghost use Rattle.graph.specs.Search.{Reached, Leads, Cyclic, Steps};
ghost use Rattle.graph.specs.Graph.{Path};
ghost use Rattle.graph.specs.Working.{nexts, Room, Visited, Offered, Tally, Peeled};
ghost use Rattle.std.specs.Fn.{FnReturnsAt};

// What a node's choice allows: its old next value only, its new one only, or either; any other number allows both too.
// Kept: numbers and no enum, since the C calls bench_reach and bench_cyclic lend the choices as bytes, and their contracts speak of
// these numbers.
pub const OLD: u8 = 0;

pub const NEW: u8 = 1;

pub const EITHER: u8 = 2;

// Numbers in the order of their coming: those from the head on wait.
// Kept: the array is lent and no part of the struct, since head and tail stay in registers only apart from an array stored into.
#[derive(Drop)]
struct Queue<'a, const N: usize> {
    items: &'a mut [u16; N],
    head: usize,
    tail: usize,
    ghost room: { tail ≤ N },
    ghost few: { N < 65536 },
}

impl<'a, const N: usize> Queue<'a, N> {
    // None has come.
    fn new(items: &'a mut [u16; N]) -> Self
        requires few { N < 65536 }
        ensures items { result.items.now ≡ items.old }
        ensures head { result.head ≡ 0 }
        ensures tail { result.tail ≡ 0 }
    {
        Queue {
            items,
            head: 0,
            tail: 0,
        }
    }

    // Puts w at the tail.
    fn push(&mut self, w: usize)
        requires room { self.old.tail < N }
        requires fits { w < 65536 }
        ensures items { self.new.items.now ≡ set self.old.items.now self.old.tail w }
        ensures head { self.new.head ≡ self.old.head }
        ensures tail { self.new.tail ≡ self.old.tail + 1 }
    {
        self.items[self.tail] = w as u16;
        self.tail += 1;
    }

    // Takes the number at the head, if one waits there.
    fn pop(&mut self) -> Option<usize>
        ensures items { self.new.items ≡ self.old.items }
        ensures tail { self.new.tail ≡ self.old.tail }
        ensures none { IsNone result → (self.old.tail ≤ self.old.head) × (self.new.head ≡ self.old.head) }
        ensures some { IfSome
            result
            (λ v.
            (self.old.head < self.old.tail)
            × (v ≡ get_or self.old.items.now self.old.head 0)
            × (self.new.head ≡ self.old.head + 1)) }
    {
        if self.head < self.tail {
            let v = usize::from(self.items[self.head]);
            self.head += 1;
            Some(v)
        } else {
            None
        }
    }
}

// How far a search has come: the marks of the numbers that it came to, and these numbers in a queue. The marks are lent,
// as the queue's array is.
#[derive(Drop)]
struct Search<'a> {
    seen: &'a mut [bool; 514],
    queue: Queue<'a, 514>,
}

impl<'a> Search<'a> {
    // Nothing is marked, and none waits.
    fn new(seen: &'a mut [bool; 514], items: &'a mut [u16; 514]) -> Self
        requires { Room seen.old items.old 0 }
        ensures room { Room result.seen.now result.queue.items.now result.queue.tail }
        ensures empty { (result.queue.head ≡ 0) × (result.queue.tail ≡ 0) }
    {
        Search {
            seen,
            queue: Queue::new(items),
        }
    }

    // Marks w and puts it into the queue, unless it has no mark of its own or is marked already. There is room, because the queue
    // holds what is marked and w is not.
    fn visit(&mut self, w: usize)
        requires { Room self.old.seen.now self.old.queue.items.now self.old.queue.tail }
        ensures visited { Visited
            self.old.seen.now
            self.old.queue.items.now
            self.old.queue.tail
            w
            self.new.seen.now
            self.new.queue.items.now
            self.new.queue.tail }
        ensures head { self.new.queue.head ≡ self.old.queue.head }
    {
        if w < 514 && !self.seen[w] {
            self.seen[w] = true;
            self.queue.push(w);
        }
    }

    // Marks all numbers to which a path from start leads, or as many of them as are enough. The start is visited first, and then
    // the next values of each node in the queue, until none is left.
    fn run<F: Fn(&[bool; 514]) -> bool>(&mut self, graph: &Graph, start: usize, enough: F)
        requires room { Room self.old.seen.now self.old.queue.items.now self.old.queue.tail }
        requires empty { (self.old.queue.head ≡ 0) × (self.old.queue.tail ≡ 0) }
        requires callable { F.IsAlwaysCallable enough }
        ensures reached { (w : _)
            → get_or self.new.seen.now w false ≡ true
            → Path (Steps graph.now.old.now graph.now.new.now graph.now.choice.now) w start }
        ensures all { Reached graph.now.old.now graph.now.new.now graph.now.choice.now start self.new.seen.now
            ⊎ FnReturnsAt F.Fn enough self.new.seen.now true }
    {
        self.visit(start);
        while let Some(v) = self.queue.pop() {
            if enough(self.seen) {
                break;
            }
            if v < 512 {
                for w in graph.nexts(v) {
                    self.visit(w);
                }
            }
        }
    }
}

// How far a peeling has come: what remains of the set, lent too, and the nodes taken away in a queue.
#[derive(Drop)]
struct Peeling<'a> {
    rest: &'a mut [bool; 512],
    queue: Queue<'a, 512>,
}

impl Peeling<'_> {
    // Takes w away, if it is a node that remains and no step is counted into it.
    fn offer(&mut self, count: &[u16; 512], w: usize)
        requires { get_or self.old.rest.now w false ≡ true → self.old.queue.tail < 512 }
        ensures offered { Offered
            self.old.rest.now
            count.now
            self.old.queue.items.now
            self.old.queue.tail
            w
            self.new.rest.now
            self.new.queue.items.now
            self.new.queue.tail }
        ensures head { self.new.queue.head ≡ self.old.queue.head }
    {
        if w >= 512 || !self.rest[w] || count[w] > 0 {
            return;
        }
        self.rest[w] = false;
        self.queue.push(w);
    }
}

// Two tables of next values, and what each node may use of them: 0 its old next value only, 1 its new one only, any other number
// either. A next value is a node below 512, 512 for nothing, or 513 for handed off.
// Kept: next values stay numbers, since the C calls bench_reach and bench_cyclic lend these tables and their contracts speak of the
// numbers.
#[derive(Clone, Copy)]
pub struct Graph<'a> {
    pub old: &'a [u16; 512],
    pub new: &'a [u16; 512],
    pub choice: &'a [u8; 512],
}

impl Graph<'_> {
    // The two next values that v's choice allows, or twice the only one.
    fn nexts(&self, v: usize) -> [usize; 2]
        requires { v < 512 }
        ensures { result ≡ nexts self.now.old.now self.now.new.now self.now.choice.now v }
    {
        let Graph { old, new, choice } = *self;
        let old = usize::from(old[v]);
        let new = usize::from(new[v]);
        match choice[v] {
            OLD => [old, old],
            NEW => [new, new],
            _ => [old, new],
        }
    }

    // The number of steps into each node from the nodes of the set.
    fn counts(&self, alive: &[bool; 512]) -> [u16; 512]
        ensures { Tally self.now.old.now self.now.new.now self.now.choice.now alive.now result 512 }
    {
        let mut count = [0; 512];
        for (v, marked) in alive.iter().enumerate() {
            if *marked {
                for w in self.nexts(v) {
                    if w < 512 {
                        count[w] += 1;
                    }
                }
            }
        }
        count
    }

    // The number of nodes that peeling takes away from the set: first those into which no step leads. The steps from a node that was
    // taken away no longer count, and its next values are taken away if no step is left into them.
    fn peeled(&self, alive: &[bool; 512]) -> usize
        ensures { Peeled self.now.old.now self.now.new.now self.now.choice.now alive.now result }
    {
        let mut count = self.counts(alive);
        let mut rest = *alive;
        let mut items = [0; 512];
        let mut peeling = Peeling {
            rest: &mut rest,
            queue: Queue::new(&mut items),
        };
        for w in 0..512 {
            peeling.offer(&count, w);
        }
        while let Some(v) = peeling.queue.pop() {
            let nexts = self.nexts(v);
            for w in nexts {
                if w < 512 {
                    count[w] -= 1;
                }
            }
            for w in nexts {
                peeling.offer(&count, w);
            }
        }
        peeling.queue.tail
    }

    // The marks of all numbers below 514 to which a path from start leads: nodes, 512 for nothing and 513 for handed off.
    #[tactic(auto, using(crate::proofs::SearchLaws::room_begins))]
    pub fn reach(&self, start: usize) -> [bool; 514]
        ensures { Reached self.now.old.now self.now.new.now self.now.choice.now start result }
    {
        let mut seen = [false; 514];
        let mut items = [0; 514];
        let mut search = Search::new(&mut seen, &mut items);
        search.run(self, start, |_| false);
        *search.seen
    }

    // Whether a path leads from `from` to the number `to`; to a number over 513 it says no. It takes no longer than the search
    // needs to come there.
    #[tactic(auto, using(crate::proofs::SearchLaws::room_begins))]
    pub fn leads(&self, from: usize, to: usize) -> bool
        ensures { Leads self.now.old.now self.now.new.now self.now.choice.now from to result }
    {
        if to >= 514 {
            return false;
        }
        let mut seen = [false; 514];
        let mut items = [0; 514];
        let mut search = Search::new(&mut seen, &mut items);
        search.run(self, from, |seen| seen[to]);
        // Kept: taken apart, since the borrow checker doesn't cover `search.seen[to]`.
        let Search { seen, .. } = search;
        seen[to]
    }

    // Whether a closed path lies within the set: whether peeling leaves nodes of it.
    pub fn cyclic(&self, alive: &[bool; 512]) -> bool
        ensures { Cyclic self.now.old.now self.now.new.now self.now.choice.now alive.now result }
    {
        let all: usize = alive.iter().map(|marked| usize::from(*marked)).sum();
        self.peeled(alive) < all
    }
}
