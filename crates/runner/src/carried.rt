// The operators whose rows carry words from tick to tick: what each makes of its operand's cell, and of the words held.
ghost use Rattle.std.specs.Prelude.{◌≡◌, ℕ, ◌+◌, ◌-◌, ◌*◌, ◌^◌, ◌<◌, ◌≤◌, length, slice_index};
ghost use Rattle.runner.specs.Private.Carried.{outcome_of, timed_step, timed_next, faster_step, faster_next, begun};
ghost use Rattle.runner.specs.Private.Carried.{slower_step, slower_next, later_step, after_step, after_next, head_step, head_next, tail_step, tail_next};
ghost use Rattle.semantics.specs.Operators.{is};
ghost use Rattle.semantics.specs.Cells.{absent, present, mark};
ghost use Rattle.table.specs.Bits.{bit};
ghost use Rattle.runner.specs.Private.Carried.{cell_at, status, noted, view_next, view_step};
ghost use Rattle.runner.specs.Private.Plans.{cells_of};

use crate::cells::Cells;
use crate::operators::Outcome;
use table::MAX_FLOWS;

// The words that a row carries from tick to tick. Which of them a row uses, and what they say, is told at its operator; none uses the fourth.
// With four words, as many as a row has in the table, one count of bytes serves for the rows and for what they carry: two instructions a cell.
// Where 0 stands for none yet (a faster row's z, a head's x, a view's x and z), or 1 for none to come (a head's x): an Option would take a word more.
#[derive(Clone, Copy)]
pub(crate) struct Held {
    pub(crate) x: u32,
    pub(crate) y: u32,
    pub(crate) z: u32,
    pub(crate) spare: u32,
}

// What all rows carry. The length is the most flows' whatever the table: so it is known wherever a state is lent.
pub(crate) type State = [Held; MAX_FLOWS as usize];

pub(crate) const NOTHING: Held = Held {
    x: 0,
    y: 0,
    z: 0,
    spare: 0,
};

// Input: x is the next tick at which it is present, y its number among the inputs.
pub(crate) fn input(t: u32, period: u32, log: &[u32], at: usize, held: &mut Held) -> Outcome
    requires { (t < 2 ^ 24) × (period < 2 ^ 12) × (at < 2 ^ 40) }
    ensures answer { result ≡ outcome_of (timed_step t (slice_index log.now (at + held.old.y)) held.old) }
    ensures carried { held.new ≡ timed_next t period held.old }
{
    if t == held.x {
        held.x = t + period;
        Outcome::Present(table::word_at(log, at + (held.y as usize)))
    } else {
        Outcome::Absent
    }
}

// Constant: x is the next tick at which it is present. Apart from an input, whose word is looked up only where it is present.
pub(crate) fn constant(t: u32, value: u32, period: u32, held: &mut Held) -> Outcome
    requires { (t < 2 ^ 24) × (period < 2 ^ 12) }
    ensures answer { result ≡ outcome_of (timed_step t value held.old) }
    ensures carried { held.new ≡ timed_next t period held.old }
{
    if t == held.x {
        held.x = t + period;
        Outcome::Present(value)
    } else {
        Outcome::Absent
    }
}

// A presence of a faster row's operand: its value, the next copy's tick and the tick of the next presence are carried.
fn begin(t: u32, v: u32, k: u32, gap: u32, held: &mut Held) -> Outcome
    requires { (t < 2 ^ 24) × (k < 2 ^ 6) × (gap < 2 ^ 12) }
    ensures answer { result ≡ outcome_of (is (present v)) }
    ensures carried { held.new ≡ begun t v k gap held.old }
{
    held.x = v;
    held.y = t + gap;
    held.z = t + k * gap;
    Outcome::Present(v)
}

// The copy of a faster row's latest presence, at its tick.
fn copied(t: u32, gap: u32, held: &mut Held) -> Outcome
    requires { (t < 2 ^ 24) × (gap < 2 ^ 12) }
    ensures answer { result ≡ outcome_of (faster_step t absent held.old) }
    ensures carried { (k : ℕ) → held.new ≡ faster_next t absent k gap held.old }
{
    if t == held.y && held.y < held.z {
        held.y = t + gap;
        Outcome::Present(held.x)
    } else {
        Outcome::Absent
    }
}

// Faster: x is the latest value, y the next copy's tick, and z the tick at which the next presence is due, 0 before the first.
pub(crate) fn faster(t: u32, cells: Cells, a: u32, k: u32, gap: u32, held: &mut Held) -> Outcome
    requires { (a < cells.f) × (t < 2 ^ 24) × (k < 2 ^ 6) × (gap < 2 ^ 12) }
    ensures answer { result ≡ outcome_of (faster_step t (cells_of cells.entry a) held.old) }
    ensures carried { held.new ≡ faster_next t (cells_of cells.entry a) k gap held.old }
{
    let j = a as usize;
    if cells.marks[j] == 0 {
        copied(t, gap, held)
    } else if held.z == 0 || t == held.z {
        begin(t, cells.values[j], k, gap, held)
    } else {
        Outcome::Clash
    }
}

// Slower: x is how many presences are still to be left out.
pub(crate) fn slower(cells: Cells, a: u32, k: u32, held: &mut Held) -> Outcome
    requires { (a < cells.f) × (1 ≤ k) }
    ensures answer { result ≡ outcome_of (slower_step (cells_of cells.entry a) held.old) }
    ensures carried { held.new ≡ slower_next (cells_of cells.entry a) k held.old }
{
    let j = a as usize;
    if cells.marks[j] == 0 {
        return Outcome::Absent;
    }
    let left = held.x;
    if left == 0 {
        held.x = k - 1;
        Outcome::Present(cells.values[j])
    } else {
        held.x = left - 1;
        Outcome::Absent
    }
}

// A cell as it is.
fn same(cells: Cells, a: u32) -> Outcome
    requires { a < cells.f }
    ensures { result ≡ outcome_of (is (cells_of cells.entry a)) }
{
    let j = a as usize;
    if cells.marks[j] == 0 {
        Outcome::Absent
    } else {
        Outcome::Present(cells.values[j])
    }
}

// Later: the operand itself where d is 0, else what was collected, x its mark and y its value.
pub(crate) fn later(d: u32, cells: Cells, a: u32, held: &Held) -> Outcome
    requires { a < cells.f }
    ensures { result ≡ outcome_of (later_step (cells_of cells.entry a) d held.now) }
{
    if d == 0 {
        return same(cells, a);
    }
    if held.x == 0 {
        Outcome::Absent
    } else {
        Outcome::Present(held.y)
    }
}

// A presence of a head row's operand, after tick s.
fn after(t: u32, x: u32, s: u32, held: &mut Held) -> Outcome
    requires { (t < 2 ^ 24) × (s < t) }
    ensures answer { result ≡ outcome_of (after_step t x held.old) }
    ensures carried { held.new ≡ after_next t s held.old }
{
    if held.x == 0 {
        held.x = t + (t - s);
        return Outcome::Present(x);
    }
    if held.x == 1 {
        return Outcome::Present(x);
    }
    if t == held.x {
        held.x = 1;
        Outcome::Present(x)
    } else {
        Outcome::Clash
    }
}

// Head: x is 0 before the operand's first presence, then the tick at which the second is due, and 1 after that.
pub(crate) fn head(t: u32, cells: Cells, a: u32, v: u32, s: u32, held: &mut Held) -> Outcome
    requires { (a < cells.f) × (t < 2 ^ 24) }
    ensures answer { result ≡ outcome_of (head_step t (cells_of cells.entry a) v s held.old) }
    ensures carried { held.new ≡ head_next t (cells_of cells.entry a) s held.old }
{
    let j = a as usize;
    if cells.marks[j] == 0 {
        if t == s {
            Outcome::Present(v)
        } else {
            Outcome::Absent
        }
    } else if t <= s {
        Outcome::Clash
    } else {
        after(t, cells.values[j], s, held)
    }
}

// Tail: x is 0 before the operand's first presence, then 1.
pub(crate) fn tail(cells: Cells, a: u32, held: &mut Held) -> Outcome
    requires { a < cells.f }
    ensures answer { result ≡ outcome_of (tail_step (cells_of cells.entry a) held.old) }
    ensures carried { held.new ≡ tail_next (cells_of cells.entry a) held.old }
{
    let j = a as usize;
    if cells.marks[j] == 0 {
        return Outcome::Absent;
    }
    if held.x == 0 {
        held.x = 1;
        Outcome::Absent
    } else {
        Outcome::Present(cells.values[j])
    }
}

// The status of a cell that has the truth.
fn wanted(truth: bool) -> u32
    ensures { result ≡ 1 + bit truth }
{
    1 + u32::from(truth)
}

// What a view keeps of a cell: 0 absent, 1 zero, 2 not zero.
pub(crate) fn status(mark: u8, value: u32) -> u32
    ensures { result ≡ status (cell_at mark value) }
{
    if mark == 0 { 0 } else { wanted(value != 0) }
}

// A view before a's first presence: c's first one is noted, with its tick. `here` is the status of c's cell at tick t.
fn note(t: u32, here: u32, held: Held) -> Held
    ensures { result ≡ noted t here held }
{
    if held.z == 0 {
        Held {
            y: t,
            z: here,
            ..held
        }
    } else {
        held
    }
}

// The words of a view after tick t; whether a is present is given (data, no choice of a step), and the status of c's cell. Before a's first
// presence x is 0; z is 0, or from c's first presence on the status of that cell, and y its tick. From then on x is the next tick at which c is
// looked at anew, y by how many ticks c began before a, and z the status that governs.
fn watch(w: u32, t: u32, present: bool, here: u32, held: Held) -> Held
    requires { (t < 2 ^ 24) × (w < 2 ^ 12) }
    ensures { result ≡ view_next w t «present» here held }
{
    if held.x == 0 {
        let begun = note(t, here, held);
        if present {
            return Held {
                x: t + w,
                y: t.saturating_sub(begun.y),
                ..begun
            };
        }
        return begun;
    }
    if t == held.x {
        return Held {
            x: t + w,
            z: here,
            ..held
        };
    }
    held
}

// A cell by the status that governs it. It is given by its mark and value, as it stands in what C lends.
fn governed(truth: bool, mark: u8, value: u32, held: Held) -> Outcome
    ensures { result ≡ outcome_of (view_step truth (cell_at mark value) held) }
{
    if mark == 0 {
        return Outcome::Absent;
    }
    if held.z == 0 {
        return Outcome::Clash;
    }
    if held.z == wanted(truth) {
        Outcome::Present(value)
    } else {
        Outcome::Absent
    }
}

// When-seen and when-not-seen: a, where c's cell that governs has the truth, which is data of the row, no choice of a step.
pub(crate) fn viewed(
    truth: bool,
    t: u32,
    cells: Cells,
    a: u32,
    c: u32,
    w: u32,
    held: &mut Held,
) -> Outcome
    requires { (a < cells.f)
        × (c < cells.f)
        × (t < 2 ^ 24)
        × (w < 2 ^ 12) }
    ensures answer { result ≡ outcome_of (view_step truth (cells_of cells.entry a) held.new) }
    ensures carried { held.new
        ≡ view_next w t (mark (cells_of cells.entry a)) (status (cells_of cells.entry c)) held.old }
{
    let j = a as usize;
    let k = c as usize;
    *held = watch(
        w,
        t,
        cells.marks[j] != 0,
        status(cells.marks[k], cells.values[k]),
        *held,
    );
    governed(truth, cells.marks[j], cells.values[j], *held)
}
