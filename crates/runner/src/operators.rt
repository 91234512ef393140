// What each operator makes of its operands' cells at a tick. A value is read only where it is needed.
#![tactic(auto, unfolding(semantics::specs::Operators::below, semantics::specs::Operators::combined, semantics::specs::Operators::sampled, semantics::specs::Operators::neither, semantics::specs::Operators::alone, semantics::specs::Operators::merged))]

ghost use Rattle.std.specs.Prelude.{◌≡◌, ◌<◌, ◌≤◌, length};
ghost use Rattle.table.specs.Rows.{Op, larger};
ghost use Rattle.semantics.specs.Operators.{below, apply, combined, sampled, neither, alone, merged};
ghost use Rattle.runner.specs.Private.Carried.{outcome_of, Combines, register_step};
ghost use Rattle.semantics.specs.Cells.{present};
ghost use Rattle.runner.specs.Private.Plans.{cells_of};

use crate::carried::Held;
use crate::cells::Cells;

// What a row comes to at a tick: its cell, absent or present with a value, or a clash.
#[derive(Clone, Copy)]
pub enum Outcome {
    Absent,
    Present(u32),
    Clash,
}

// The bit that tells the sign of a number in two's complement.
const SIGN_BIT: u32 = 0x8000_0000;

// The order of less and larger. With the sign bit flipped, numbers in two's complement stand in the order of their words. Signed order over
// words: no derive gives it.
fn below(x: u32, y: u32) -> bool
    ensures { result ≡ below x y }
{
    (x ^ SIGN_BIT) < (y ^ SIGN_BIT)
}

// The greater of two signed numbers.
fn larger(x: u32, y: u32) -> u32
    ensures { result ≡ apply larger x y }
{
    if below(x, y) { y } else { x }
}

// The value of kinds 2 to 6. Over the number itself: an enum would be a decision of its own before this one.
fn apply(kind: u32, x: u32, y: u32) -> u32
    requires { (2 ≤ kind) × (kind ≤ 6) }
    ensures { (op : Op) → Combines kind op → result ≡ apply op x y }
{
    match kind {
        2 => x.wrapping_add(y),
        3 => x.wrapping_sub(y),
        4 => u32::from(below(x, y)),
        5 => u32::from(x == y),
        _ => larger(x, y),
    }
}

// Kinds 2 to 6: present when both operands are.
pub(crate) fn combined(kind: u32, cells: Cells, a: u32, b: u32) -> Outcome
    requires { (a < cells.f) × (b < cells.f) × (2 ≤ kind) × (kind ≤ 6) }
    ensures { (op : Op)
        → Combines kind op
        → result ≡ outcome_of (combined op (cells_of cells.entry a) (cells_of cells.entry b)) }
{
    let i = a as usize;
    let j = b as usize;
    if cells.marks[i] == 0 {
        if cells.marks[j] == 0 {
            Outcome::Absent
        } else {
            Outcome::Clash
        }
    } else {
        if cells.marks[j] == 0 {
            Outcome::Clash
        } else {
            Outcome::Present(apply(kind, cells.values[i], cells.values[j]))
        }
    }
}

// Register: x is the value of its source's latest presence, at first the initial value.
pub(crate) fn registered(cells: Cells, b: u32, held: &Held) -> Outcome
    requires { b < cells.f }
    ensures { result ≡ outcome_of (register_step (cells_of cells.entry b) held.now) }
{
    if cells.marks[b as usize] == 0 {
        Outcome::Absent
    } else {
        Outcome::Present(held.x)
    }
}

// When, when-not: present where both are and c has the truth wanted. The truth is data of the row, no choice of a step. The same four cases as above:
// a mark and a value fetched together took one instruction a cell more (docs/DECISIONS.md).
pub(crate) fn sampled(wanted: bool, cells: Cells, a: u32, c: u32) -> Outcome
    requires { (a < cells.f) × (c < cells.f) }
    ensures { result ≡ outcome_of (sampled wanted (cells_of cells.entry a) (cells_of cells.entry c)) }
{
    let i = a as usize;
    let j = c as usize;
    if cells.marks[i] == 0 {
        if cells.marks[j] == 0 {
            Outcome::Absent
        } else {
            Outcome::Clash
        }
    } else {
        if cells.marks[j] == 0 {
            Outcome::Clash
        } else {
            chosen(wanted, cells.values[i], cells.values[j])
        }
    }
}

// A value, where the truth of y is the one wanted.
fn chosen(wanted: bool, x: u32, y: u32) -> Outcome
    ensures { result ≡ outcome_of (sampled wanted (present x) (present y)) }
{
    if y == 0 {
        if wanted {
            Outcome::Absent
        } else {
            Outcome::Present(x)
        }
    } else {
        if wanted {
            Outcome::Present(x)
        } else {
            Outcome::Absent
        }
    }
}

// The one of two that is to be present alone.
fn alone(cells: Cells, one: u32, other: u32) -> Outcome
    requires { (one < cells.f) × (other < cells.f) }
    ensures { result ≡ outcome_of (alone (cells_of cells.entry one) (cells_of cells.entry other)) }
{
    let i = one as usize;
    if cells.marks[i] == 0 {
        return Outcome::Clash;
    }
    let value = cells.values[i];
    let given = Outcome::Present(value);
    let both = Outcome::Clash;
    if cells.marks[other as usize] == 0 {
        given
    } else {
        both
    }
}

// Neither of two.
fn neither(cells: Cells, a: u32, b: u32) -> Outcome
    requires { (a < cells.f) × (b < cells.f) }
    ensures { result ≡ outcome_of (neither (cells_of cells.entry a) (cells_of cells.entry b)) }
{
    if cells.marks[a as usize] == 0 && cells.marks[b as usize] == 0 {
        Outcome::Absent
    } else {
        Outcome::Clash
    }
}

// Merge: the one that the truth of c names, alone.
pub(crate) fn merged(cells: Cells, c: u32, a: u32, b: u32) -> Outcome
    requires { (c < cells.f) × (a < cells.f) × (b < cells.f) }
    ensures { result ≡ outcome_of (merged (cells_of cells.entry c) (cells_of cells.entry a) (cells_of cells.entry b)) }
{
    let j = c as usize;
    if cells.marks[j] == 0 {
        neither(cells, a, b)
    } else {
        if cells.values[j] == 0 {
            alone(cells, b, a)
        } else {
            alone(cells, a, b)
        }
    }
}
