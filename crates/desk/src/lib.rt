// What the two programs print for the bytes of a plan file: the checker one line, the planner a plan file or the NO line. It
// stands at the front of the lent bytes; the reply is its length. A line is a word and numbers, fields one space apart, in
// decimal, ended by a line feed.
#![tactic(auto)]

ghost use Rattle.std.specs.Prelude.{◌≡◌, [], ◌∷◌, ◌++◌, ◌+◌, ◌*◌, ◌≤◌, length, take, IfOk, IfErr};
ghost use Rattle.house.specs.Refusals.{First};
ghost use Rattle.house.specs.Sets.{has};
ghost use Rattle.plans.specs.Plan.{rising};
ghost use Rattle.desk.specs.Text.{OK, NO};
ghost use Rattle.desk.specs.Replies.{zeros, told, FileFault, CheckerPuts, PlannerPuts};
ghost use Rattle.desk.specs.Parts.{PutText, PutFields, PutLine, IsRead, Checked, Planned};

use house::{IdSet, Refusal, Told, store};
use planfile::read::Content;
use rounds::check::Accepted;

// What was read of a plan file: four lent arrays, with the content at their fronts. They are filled in place, and none is moved.
#[derive(Drop)]
struct Held<'a> {
    old: &'a [u8; 512],
    new: &'a [u8; 512],
    ids: &'a [u8; 4096],
    sizes: &'a [u8; 2048],
    content: Content,
    ghost old_within: { 2 * content.olds ≤ 512 },
    ghost new_within: { 2 * content.news ≤ 512 },
    ghost ids_within: { 2 * content.ids ≤ 4096 },
    ghost sizes_within: { 2 * content.rounds ≤ 2048 },
}

impl<'a> Held<'a> {
    // Reads a plan file into four lent arrays, which hold zeros.
    fn read(
        file: &[u8],
        old: &'a mut [u8; 512],
        new: &'a mut [u8; 512],
        ids: &'a mut [u8; 4096],
        sizes: &'a mut [u8; 2048],
    ) -> Result<Held<'a>, Refusal>
        requires old { old.old ≡ zeros 512 }
        requires new { new.old ≡ zeros 512 }
        requires ids { ids.old ≡ zeros 4096 }
        requires sizes { sizes.old ≡ zeros 2048 }
        ensures held { IfOk result (λ h. IsRead file.now (take (2 * h.content.olds) h.old.now)
            (take (2 * h.content.news) h.new.now) h.content.mode (take (2 * h.content.ids) h.ids.now)
            (take (2 * h.content.rounds) h.sizes.now)) }
        ensures refused { IfErr result (First (FileFault file.now)) }
    {
        let content = planfile::read::read(file, old, new, ids, sizes)?;
        Ok(Held {
            old,
            new,
            ids,
            sizes,
            content,
        })
    }

    // The old route.
    // Kept: here and below a name for the reference, since the borrow checker doesn't cover `&self.old[..]`.
    fn old_route(&self) -> &[u8]
        ensures { result.now ≡ take (2 * self.now.content.olds) self.now.old.now }
    {
        let old = self.old;
        &old[..2 * self.content.olds]
    }

    // The new route.
    fn new_route(&self) -> &[u8]
        ensures { result.now ≡ take (2 * self.now.content.news) self.now.new.now }
    {
        let new = self.new;
        &new[..2 * self.content.news]
    }

    // The ids of the rounds, all rounds joined.
    fn ids(&self) -> &[u8]
        ensures { result.now ≡ take (2 * self.now.content.ids) self.now.ids.now }
    {
        let ids = self.ids;
        &ids[..2 * self.content.ids]
    }

    // The sizes of the rounds.
    fn sizes(&self) -> &[u8]
        ensures { result.now ≡ take (2 * self.now.content.rounds) self.now.sizes.now }
    {
        let sizes = self.sizes;
        &sizes[..2 * self.content.rounds]
    }
}

// What is printed so far: `len` bytes, at the front of `out`.
// Kept: not `write!`, which promises its text only where it gives `Ok`; these always print.
#[derive(Drop)]
struct Printed<'a> {
    out: &'a mut [u8; 4096],
    len: usize,
}

impl Printed<'_> {
    // Puts `text` behind what is printed.
    fn text(&mut self, text: &[u8])
        requires { self.old.len + length text.now ≤ 4096 }
        ensures same_reference { self.new.out.ghost_name ≡ self.old.out.ghost_name }
        ensures put { PutText self.old.out.now self.old.len text.now self.new.len self.new.out.now }
    {
        let at = self.len;
        store(self.out, at, text);
        self.len = at + text.len();
    }

    // Puts a space and the number `n` in decimal.
    fn number(&mut self, n: usize)
        requires { self.old.len + 21 ≤ 4096 }
        ensures same_reference { self.new.out.ghost_name ≡ self.old.out.ghost_name }
        ensures put { PutFields self.old.out.now self.old.len (n ∷ []) self.new.len self.new.out.now }
        ensures short { self.new.len ≤ self.old.len + 21 }
    {
        let mut digits = [0; 20];
        let k = io::decimal(n as u64, &mut digits);
        self.text(b" ");
        self.text(&digits[..k]);
    }

    // Puts the ids of the set, rising. Each has at most three digits.
    fn ids(&mut self, set: &IdSet)
        requires { self.old.len + 2069 ≤ 4096 }
        ensures same_reference { self.new.out.ghost_name ≡ self.old.out.ghost_name }
        ensures put { PutFields self.old.out.now self.old.len (rising (has set.now.words)) self.new.len self.new.out.now }
        ensures short { self.new.len ≤ self.old.len + 2048 }
    {
        let mut from = 0;
        while let Some(id) = set.first_from(from) {
            self.number(id);
            from = id + 1;
        }
    }
}

// Puts the OK line at the front: the number of rounds and the number of due nodes. Gives its length.
fn ok_line(out: &mut [u8; 4096], passed: Accepted) -> usize
    ensures { PutLine OK (passed.rounds ∷ passed.dues ∷ []) out.old result out.new }
{
    let mut line = Printed { out, len: 0 };
    line.text(b"OK");
    line.number(passed.rounds);
    line.number(passed.dues);
    line.text(b"\n");
    line.len
}

// Puts the NO line at the front: the refusal's number, where and place, and the ids of the set. Gives its length.
fn no_line(out: &mut [u8; 4096], r: Refusal, set: &IdSet) -> usize
    ensures { PutLine NO (told r ++ rising (has set.now.words)) out.old result out.new }
{
    let told = Told::from(r);
    let mut line = Printed { out, len: 0 };
    line.text(b"NO");
    line.number(told.number);
    line.number(told.site);
    line.number(told.place);
    line.ids(set);
    line.text(b"\n");
    line.len
}

// What the check says of a file. After 16 and 17 the set has the ids of the named subset, and else none.
fn checked(file: &[u8], set: &mut [u8; 64]) -> Result<Accepted, Refusal>
    requires { set.old ≡ zeros 64 }
    ensures { Checked file.now result set.new }
{
    let mut old = [0; 512];
    let mut new = [0; 512];
    let mut ids = [0; 4096];
    let mut sizes = [0; 2048];
    let held = Held::read(file, &mut old, &mut new, &mut ids, &mut sizes)?;
    rounds::check::check(
        held.old_route(),
        held.new_route(),
        held.content.mode,
        held.ids(),
        held.sizes(),
        set,
    )
}

// The checker's line for a file: OK, the number of rounds and the number of due nodes; or NO, number, where, place and, after 16
// and 17, the ids of the named subset.
pub fn checker(file: &[u8], out: &mut [u8; 4096]) -> usize
    ensures { CheckerPuts file.now out.old result out.new }
{
    let mut set = [0; 64];
    match checked(file, &mut set) {
        Ok(passed) => ok_line(out, passed),
        Err(r) => no_line(out, r, &IdSet::from_bytes(&set)),
    }
}

// Puts the plan file of a file's routes and its mode at the front. Gives its length. The writer refuses nothing that the planner
// gave.
fn planned(file: &[u8], out: &mut [u8; 4096]) -> Result<usize, Refusal>
    ensures { Planned file.now out.old result out.new }
{
    let mut old = [0; 512];
    let mut new = [0; 512];
    let mut ids = [0; 4096];
    let mut sizes = [0; 2048];
    let held = Held::read(file, &mut old, &mut new, &mut ids, &mut sizes)?;
    let (old, new, mode) = (held.old_route(), held.new_route(), held.content.mode);
    let mut ids = [0; 1024];
    let mut sizes = [0; 1024];
    let given = plans::plan::plan(old, new, mode, &mut ids, &mut sizes)?;
    planfile::write::write(
        old,
        new,
        mode,
        &ids[..2 * given.count],
        &sizes[..2 * given.rounds],
        out,
    )
}

// What the planner prints for a file: the plan file of its routes and its mode, whatever rounds it holds; or the NO line.
pub fn planner(file: &[u8], out: &mut [u8; 4096]) -> usize
    ensures { PlannerPuts file.now out.old result out.new }
{
    match planned(file, out) {
        Ok(size) => size,
        Err(r) => no_line(out, r, &IdSet::new()),
    }
}
