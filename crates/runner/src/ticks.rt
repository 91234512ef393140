// One tick: the flows in ascending order, and then the registers' sources.
ghost use Rattle.std.specs.Prelude.{◌≡◌, ℕ, ◌+◌, ◌*◌, ◌^◌, ◌<◌, ◌≤◌, List, [], length, if◌then◌else◌, ◌==◌, nat_eq, slice_index, slice_set};
ghost use Rattle.table.specs.Rows.{max_flows, kind_count, kind_at, decode, bad_register, row_size};
ghost use Rattle.table.specs.Tables.{FieldsFit};
ghost use Rattle.runner.specs.Private.Carried.{clash_mark, mark_of, value_of, Did};
ghost use Rattle.semantics.specs.Runs.{Tick, Ticks, flows_from, source_meets, tick_of};
ghost use Rattle.runner.specs.Private.Ready.{Ready, AllFollow, Wrote, FlowsEnd, LatchEnd, TickDone};
ghost use Rattle.runner.specs.Private.Plans.{plan_rows};
ghost use Rattle.runner.specs.Private.Plans.{cells_of};

use crate::carried::{Held, State};
use crate::cells::Cells;
use crate::operators::Outcome;
use crate::plan::Plan;
use crate::{carried, operators};
use table::ROW_SIZE;

// What row f comes to at tick t: one decision over the kind. That no other kind is left is told before it, and the arms stand from 18 down: so
// the compiler makes one jump of the decision and of the one over kinds 2 to 6 in it. The third field is read only where a kind has one: read
// before the decision, it costs every cell a register. No table that is run has an unrated row.
#[tactic(auto, unfolding(table::specs::Rows::kinds, crate::specs::Private::Carried::step_of, crate::specs::Private::Carried::next_of))]
fn outcome(
    plan: Plan,
    kind: u32,
    p: u32,
    q: u32,
    t: u32,
    at: usize,
    held: &mut Held,
    cells: Cells,
) -> Outcome
    requires { (cells.f < plan.n)
        × (kind < kind_count)
        × (FieldsFit max_flows cells.f (kind_at kind) p q (slice_index plan.words.now (row_size * cells.f + 3)))
        × (t < 2 ^ 24)
        × (at < 2 ^ 40) }
    ensures { Did (decode kind p q (slice_index plan.entry.words.now (row_size * cells.entry.f + 3))) t plan.entry.log.now at (cells_of cells.entry)
        held.old held.new result }
{
    if table::KINDS <= kind {
        return Outcome::Clash;
    }
    match kind {
        18 => carried::viewed(false, t, cells, p, q, plan.third(cells.f), held),
        17 => carried::viewed(true, t, cells, p, q, plan.third(cells.f), held),
        16 => Outcome::Absent,
        15 => operators::merged(cells, p, q, plan.third(cells.f)),
        14 => operators::sampled(false, cells, p, q),
        13 => operators::sampled(true, cells, p, q),
        12 => carried::tail(cells, p, held),
        11 => carried::head(t, cells, p, q, plan.third(cells.f), held),
        10 => carried::later(q, cells, p, held),
        9 => carried::slower(cells, p, q, held),
        8 => carried::faster(t, cells, p, q, plan.third(cells.f), held),
        7 => operators::registered(cells, q, held),
        1 => carried::constant(t, p, q, held),
        0 => carried::input(t, p, plan.log, at, held),
        2..=6 => match kind {
            2 => operators::combined(2, cells, p, q),
            3 => operators::combined(3, cells, p, q),
            4 => operators::combined(4, cells, p, q),
            5 => operators::combined(5, cells, p, q),
            6 => operators::combined(6, cells, p, q),
            _ => Outcome::Clash,
        },
        19..=4294967295 => Outcome::Clash,
    }
}

// The cell at f is written, unless it is a clash: whether it is one, which names no more than f.
fn put(marks: &mut [u8], values: &mut [u32], f: usize, o: Outcome) -> bool
    requires { (f < length marks.old) × (f < length values.old) }
    ensures { (result ≡ (mark_of o == clash_mark))
        × (marks.new ≡ (if nat_eq (mark_of o) clash_mark then marks.old else slice_set marks.old f (mark_of o)))
        × (values.new ≡ (if nat_eq (mark_of o) clash_mark then values.old else slice_set values.old f (value_of o))) }
{
    let (mark, value) = match o {
        Outcome::Clash => return true,
        Outcome::Absent => (0, 0),
        Outcome::Present(value) => (1, value),
    };
    marks[f] = mark;
    values[f] = value;
    false
}

// The cells of the flows in ascending order, up to one that clashes. `at` is the place of the tick's first word in the log. Words by
// place: see `collect`.
fn flows(
    plan: Plan,
    at: usize,
    t: u32,
    state: &mut State,
    marks: &mut [u8],
    values: &mut [u32],
) -> Result<(), usize>
    requires { (plan.n ≤ length marks.old)
        × (plan.n ≤ length values.old)
        × (t < 2 ^ 24)
        × (at < 2 ^ 40) }
    ensures { (past : Ticks)
        → Ready (plan_rows plan.entry) past t at state.old
        → FlowsEnd (plan_rows plan.entry) t past (flows_from (plan_rows plan.entry) plan.entry.log.now past [] (plan_rows plan.entry))
        marks.old values.old marks.new values.new state.new result }
{
    for f in 0..plan.n {
        let cells = Cells { marks, values, f };
        let o = outcome(
            plan,
            plan.words[ROW_SIZE * f],
            plan.words[ROW_SIZE * f + 1],
            plan.words[ROW_SIZE * f + 2],
            t,
            at,
            &mut state[f],
            cells,
        );
        if put(marks, values, f, o) {
            return Err(f);
        }
    }
    Ok(())
}

// A register's word after a tick in which its source had a cell, which is given by its mark and value.
fn latched(held: u32, mark: u8, value: u32) -> u32
    ensures { result ≡ (if nat_eq mark 0 then held else value) }
{
    if mark == 0 { held } else { value }
}

// After all flows: the lowest register whose source and beat are not both present or both absent. Each register before it takes its
// source's value.
fn latch(plan: Plan, state: &mut State, marks: &[u8], values: &[u32]) -> Result<(), usize>
    requires { (plan.n ≤ length marks.now) × (plan.n ≤ length values.now) }
    ensures { (past : Ticks) (cells : Tick) (ms vs : List ℕ) (t : ℕ)
        → length cells ≡ plan.entry.n
        → Wrote cells ms vs marks.now values.now
        → AllFollow (plan_rows plan.entry) t cells past state.old
        → LatchEnd (plan_rows plan.entry) t past cells (bad_register (source_meets cells) 0 (plan_rows plan.entry))
        state.new result }
{
    for row in plan.registers {
        let f = *row as usize;
        let b = plan.words[ROW_SIZE * f + 2] as usize;
        let a = plan.words[ROW_SIZE * f + 3] as usize;
        if marks[a] != marks[b] {
            return Err(f);
        }
        let held = &mut state[f];
        held.x = latched(held.x, marks[a], values[a]);
    }
    Ok(())
}

// One tick, into the parts of the trace that start at its own first cell; a clash names a flow.
pub(crate) fn tick(
    plan: Plan,
    at: usize,
    t: u32,
    state: &mut State,
    marks: &mut [u8],
    values: &mut [u32],
) -> Result<(), usize>
    requires { (plan.n ≤ length marks.old)
        × (plan.n ≤ length values.old)
        × (t < 2 ^ 24)
        × (at < 2 ^ 40) }
    ensures { (past : Ticks)
        → Ready (plan_rows plan.entry) past t at state.old
        → TickDone (plan_rows plan.entry) t past (tick_of (plan_rows plan.entry) plan.entry.log.now past)
        marks.old values.old marks.new values.new state.new result }
{
    flows(plan, at, t, state, marks, values)?;
    latch(plan, state, marks, values)
}
