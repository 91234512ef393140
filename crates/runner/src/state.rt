// The words that the rows carry into tick 0, the rows of a kind, and what is collected of earlier ticks.
ghost use Rattle.std.specs.Prelude.{◌≡◌, ℕ, ◌+◌, ◌*◌, ◌^◌, ◌<◌, ◌≤◌, [], length, take, if◌then◌else◌, ◌≢◌, slice_index, slice_set};
ghost use Rattle.table.specs.Rows.{max_flows, max_field, kind_count, decode, row_size};
ghost use Rattle.semantics.specs.Runs.{Ticks, inputs};
ghost use Rattle.runner.specs.Private.Carried.{cell_at, look_for, start_word, start_of};
ghost use Rattle.runner.specs.Private.Ready.{rows_in, Plain, AllCarry, Ready, numbers, one_of, looks_back};
ghost use Rattle.runner.specs.Private.Placed.{Fitting, Recalls, cell_before, Backward, Near};
ghost use Rattle.runner.specs.Private.Plans.{plan_rows};

use crate::carried;
use crate::carried::{Held, State};
use crate::plan::Plan;
use table::{ROW_SIZE, Record};

// The kinds of registers and of later rows.
pub(crate) const REGISTER: u32 = 7;

pub(crate) const LATER: u32 = 10;

// Whether k is the kind, or one from another on. Two numbers, the second KINDS for none: with a closure the contract would say the kinds again.
fn one_of(kind: u32, from: u32, k: u32) -> bool
    ensures { result ≡ one_of kind from k }
{
    k == kind || from <= k
}

// Row f is added to the list where it is of one of the kinds. The place after the last: a list that grows would need the heap.
fn listed_with(
    kind: u32,
    from: u32,
    words: &[u32],
    f: usize,
    list: &mut [u32],
    found: usize,
) -> usize
    requires { (f < max_flows) × (row_size * f < length words.now) × (found < length list.old) }
    ensures { (list.new
        ≡ (if one_of kind from (slice_index words.now (row_size * f)) then slice_set list.old found f else list.old))
        × (result ≡ (if one_of kind from (slice_index words.now (row_size * f)) then found + 1 else found)) }
{
    if one_of(kind, from, words[ROW_SIZE * f]) {
        list[found] = f as u32;
        found + 1
    } else {
        found
    }
}

// The numbers of the rows of a kind, and of those from another on, in ascending order, at the front of a list, and how many there are.
pub(crate) fn listed(kind: u32, from: u32, n: usize, words: &[u32], list: &mut [u32]) -> usize
    requires { (n ≤ max_flows) × (length words.now ≡ row_size * n) × (n ≤ length list.old) }
    ensures { (result ≤ length list.new) × (take result list.new ≡ numbers (one_of kind from) n words.now) }
{
    let mut found = 0;
    for f in 0..n {
        found = listed_with(kind, from, words, f, list, found);
    }
    found
}

// The first word that a row carries into tick 0: the phase of an input or a constant, the initial value of a register.
// Over the number itself: an enum would be a decision of its own before this one.
#[tactic(auto, unfolding(table::specs::Rows::kinds, crate::specs::Private::Carried::start_word))]
fn first_word(row: Record) -> u32
    requires { row.kind < kind_count }
    ensures { result ≡ start_word (decode row.kind row.one row.two row.three) }
{
    match row.kind {
        0 => row.two,
        1 => row.three,
        7 => row.one,
        _ => 0,
    }
}

// The words that a row carries into tick 0, where j inputs stand before it.
fn first_words(row: Record, j: u32) -> Held
    requires { row.kind < kind_count }
    ensures { result ≡ start_of (decode row.kind row.one row.two row.three) j }
{
    Held {
        x: first_word(row),
        y: j,
        ..carried::NOTHING
    }
}

// The words that the rows carry into tick 0, and the count of inputs, by the number of their kind.
pub(crate) fn start(n: usize, words: &[u32], state: &mut State) -> u32
    requires { Plain n words.now }
    ensures { (result ≡ inputs (rows_in n words.now)) × (AllCarry (rows_in n words.now) 0 [] state.new) }
{
    let mut j = 0;
    for f in 0..n {
        let row = table::record_at(words, f as u32);
        state[f] = first_words(row, j);
        j += u32::from(row.kind == 0);
    }
    j
}

// What a later row needs of an earlier tick.
// What a caller lends stays beside the plan, here and below: a struct of lent slices would be made anew at every tick.
fn collect_row(plan: Plan, a: usize, d: u32, t: u32, marks: &[u8], values: &[u32], held: &mut Held)
    requires { (a < plan.n)
        × (Fitting (plan.mask + 1) plan.n (t + 1) (length marks.now))
        × (Fitting (plan.mask + 1) plan.n (t + 1) (length values.now)) }
    ensures { cell_at held.new.x held.new.y ≡ cell_before (plan.entry.mask + 1) plan.entry.n a d t marks.now values.now }
{
    if d <= t {
        let place = plan.first_cell(t - d) + a;
        held.x = u32::from(marks[place]);
        held.y = values[place];
    } else {
        held.x = 0;
    }
}

// What a view needs of an earlier tick: c's cell, as many ticks before as c began before a, where it is to be looked at anew.
fn look_row(plan: Plan, c: usize, w: u32, t: u32, marks: &[u8], values: &[u32], held: &mut Held)
    requires { (c < plan.n)
        × (Fitting (plan.mask + 1) plan.n (t + 1) (length marks.now))
        × (Fitting (plan.mask + 1) plan.n (t + 1) (length values.now))
        × (t < 2 ^ 24)
        × (w ≤ max_field) }
    ensures { held.new ≡ look_for w t (cell_before (plan.entry.mask + 1) plan.entry.n c held.old.y t marks.now values.now) held.old }
{
    let lag = held.y;
    if t == held.x && lag != 0 && lag <= t {
        let place = plan.first_cell(t - lag) + c;
        held.x = t + w;
        held.z = carried::status(marks[place], values[place]);
    }
}

// What a row that looks back needs of an earlier tick: by the number of its kind, as the words have it.
fn look_back(
    plan: Plan,
    kind: u32,
    p: u32,
    q: u32,
    r: u32,
    t: u32,
    marks: &[u8],
    values: &[u32],
    held: &mut Held,
)
    requires { (kind ≡ 10 → p < plan.n)
        × ((kind ≢ 10) → (q < plan.n) × (r ≤ max_field))
        × (Fitting (plan.mask + 1) plan.n (t + 1) (length marks.now))
        × (Fitting (plan.mask + 1) plan.n (t + 1) (length values.now))
        × (t < 2 ^ 24) }
    ensures { Backward (plan.entry.mask + 1) plan.entry.n kind p q r t marks.now values.now held.old held.new }
{
    if kind == LATER {
        collect_row(plan, p as usize, q, t, marks, values, held)
    } else {
        look_row(plan, q as usize, r, t, marks, values, held)
    }
}

// What tick t needs of earlier ticks, for the rows that look back.
pub(crate) fn collect(
    plan: Plan,
    backward: &[u32],
    t: u32,
    marks: &[u8],
    values: &[u32],
    state: &mut State,
)
    requires { (Fitting (plan.mask + 1) plan.n (t + 1) (length marks.now))
        × (Fitting (plan.mask + 1) plan.n (t + 1) (length values.now))
        × (t < 2 ^ 24)
        × (backward.now ≡ numbers looks_back plan.n plan.words.now) }
    ensures { (past : Ticks) (at : ℕ)
        → length past ≡ t
        → at ≡ t * inputs (plan_rows plan.entry)
        → Recalls (plan.entry.mask + 1) plan.entry.n t past marks.now values.now
        → Near (plan.entry.mask + 1) (plan_rows plan.entry) past
        → AllCarry (plan_rows plan.entry) t past state.old
        → Ready (plan_rows plan.entry) past t at state.new }
{
    // The words one by one: `record_at` would test the length anew, for each such row at each tick.
    for row in backward {
        let f = *row as usize;
        look_back(
            plan,
            plan.words[ROW_SIZE * f],
            plan.words[ROW_SIZE * f + 1],
            plan.words[ROW_SIZE * f + 2],
            plan.words[ROW_SIZE * f + 3],
            t,
            marks,
            values,
            &mut state[f],
        );
    }
}
