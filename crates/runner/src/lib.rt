// The runs: each flow's cell at each tick, or a clash. A run has room for every tick, a long run for a window of them.
// A cast by `as` stands where std has no `From`, or a constant may call none; that nothing is lost is proved.
#![tactic(auto)]

ghost use Rattle.std.specs.Prelude.{◌≡◌, ℕ, ◌+◌, ◌*◌, ◌^◌, ◌<◌, ◌≤◌, List, length};
ghost use Rattle.table.specs.Answers.{parts};
ghost use Rattle.table.specs.Rows.{max_flows, max_field};
ghost use Rattle.semantics.specs.Runs.{Ticks, tick_of, run};
ghost use Rattle.runner.specs.Called.{Called};
ghost use Rattle.runner.specs.Long.{LongCalled};
ghost use Rattle.runner.specs.Private.Ready.{Plain, AllCarry, Ready, numbers, looks_back};
ghost use Rattle.runner.specs.Private.Placed.{first_cell, Fitting, Recalls, Near, Nearby, TickAt, Running, TicksEnd, given};
ghost use Rattle.runner.specs.Private.Plans.{plan_rows};
ghost use Rattle.runner.specs.Private.Placed as placed;

mod carried;
mod cells;
mod long;
mod operators;
mod plan;
mod state;
mod tally;
mod ticks;

use crate::carried::State;
use crate::plan::Plan;
use crate::state::{LATER, REGISTER};
use semantics::MAX_TICKS;
use table::{MAX_FLOWS, Refusal, Refused};

// The mask that leaves every tick as it is: a run's that has room for all.
const WHOLE: usize = 4294967295;

// A clash: its tick, and the flow that it names.
#[derive(Clone, Copy)]
struct Clashed {
    tick: u32,
    flow: usize,
}

// The parts of marks and values that start at the tick's own first cell are lent to the tick.
// What a caller lends stays beside the plan, here and below: a struct of lent slices would be made anew at every tick.
fn tick_at(
    plan: Plan,
    first: usize,
    at: usize,
    t: u32,
    state: &mut State,
    marks: &mut [u8],
    values: &mut [u32],
) -> Result<(), usize>
    requires { (first + plan.n ≤ length marks.old)
        × (first + plan.n ≤ length values.old)
        × (t < 2 ^ 24)
        × (at < 2 ^ 40) }
    ensures { (past : Ticks)
        → Ready (plan_rows plan.entry) past t at state.old
        → TickAt first (plan_rows plan.entry) t past (tick_of (plan_rows plan.entry) plan.entry.log.now past)
        marks.old values.old marks.new values.new state.new result }
{
    ticks::tick(
        plan,
        at,
        t,
        state,
        &mut marks[first..],
        &mut values[first..],
    )
}

// One turn of a run: what tick t needs of earlier ticks is collected, and the tick is worked out from its first cell on.
fn turn(
    plan: Plan,
    backward: &[u32],
    t: u32,
    state: &mut State,
    marks: &mut [u8],
    values: &mut [u32],
) -> Result<(), usize>
    requires { (Fitting (plan.mask + 1) plan.n (t + 1) (length marks.old))
        × (Fitting (plan.mask + 1) plan.n (t + 1) (length values.old))
        × (t < 2 ^ 24)
        × (backward.now ≡ numbers looks_back plan.n plan.words.now) }
    ensures { (past : Ticks)
        → length past ≡ t
        → Recalls (plan.entry.mask + 1) plan.entry.n t past marks.old values.old
        → Near (plan.entry.mask + 1) (plan_rows plan.entry) past
        → AllCarry (plan_rows plan.entry) t past state.old
        → TickAt (first_cell (plan.entry.mask + 1) plan.entry.n t) (plan_rows plan.entry) t past (tick_of (plan_rows plan.entry) plan.entry.log.now past)
        marks.old values.old marks.new values.new state.new result }
{
    state::collect(plan, backward, t, marks, values, state);
    let first = plan.first_cell(t);
    let at = (t as usize) * plan.inputs;
    tick_at(plan, first, at, t, state, marks, values)
}

// The ticks from one up to another, until one clashes. The list and the plan come last: first, a tick has three instructions more.
pub(crate) fn run_ticks(
    from: u32,
    to: u32,
    state: &mut State,
    marks: &mut [u8],
    values: &mut [u32],
    backward: &[u32],
    plan: Plan,
) -> Result<(), Clashed>
    requires { (Fitting (plan.mask + 1) plan.n to (length marks.old))
        × (Fitting (plan.mask + 1) plan.n to (length values.old))
        × (from ≤ to)
        × (to < 2 ^ 24)
        × (Nearby (plan.mask + 1) (plan_rows plan) plan.log.now)
        × (backward.now ≡ numbers looks_back plan.n plan.words.now) }
    ensures { (ms vs : List ℕ)
        → Running plan.entry.n (plan.entry.mask + 1) from (plan_rows plan.entry) plan.entry.log.now ms vs state.old marks.old values.old
        → TicksEnd plan.entry.n (plan.entry.mask + 1) to (plan_rows plan.entry) plan.entry.log.now
        (run (plan_rows plan.entry) plan.entry.log.now to)
        ms vs state.new marks.new values.new result }
{
    for t in from..to {
        if let Err(flow) = turn(plan, backward, t, state, marks, values) {
            return Err(Clashed { tick: t, flow });
        }
    }
    Ok(())
}

// The limits of either run, on lengths: 31 above the most ticks, 32, and `short` where marks or values have too few cells. Eight numbers: the
// two runs ask for different lengths.
pub(crate) fn limits(
    ticks: u32,
    most: u32,
    logged: usize,
    inputs: usize,
    cells: usize,
    short: Refusal,
    marks: usize,
    values: usize,
) -> Result<(), Refused>
    requires { inputs ≤ max_flows }
    ensures { result ≡ given (placed.limits ticks most logged inputs cells short marks values) }
{
    if most < ticks {
        return Err(Refusal::TooManyTicks.at(0));
    }
    if logged != (ticks as usize) * inputs {
        return Err(Refusal::WrongLog.at(0));
    }
    if marks < cells || values < cells {
        return Err(short.at(0));
    }
    Ok(())
}

// The run of a table that is not refused: its limits, and then all its ticks, or 34 with the flow and the tick of a clash.
fn replay(
    n: usize,
    words: &[u32],
    log: &[u32],
    ticks: u32,
    marks: &mut [u8],
    values: &mut [u32],
) -> Result<u32, Refused>
    requires { Plain n words.now }
    ensures { Called n words.now log.now ticks marks.old values.old marks.new
        values.new (parts result) }
{
    let mut state = [carried::NOTHING; MAX_FLOWS as usize];
    let inputs = state::start(n, words, &mut state) as usize;
    let cells = (ticks as usize) * n;
    limits(
        ticks,
        MAX_TICKS,
        log.len(),
        inputs,
        cells,
        Refusal::ShortTrace,
        marks.len(),
        values.len(),
    )?;
    let mut registers = [0u32; MAX_FLOWS as usize];
    let mut backward = [0u32; MAX_FLOWS as usize];
    let register_count = state::listed(REGISTER, table::KINDS, n, words, &mut registers);
    let backward_count = state::listed(LATER, table::FIRST_VIEW, n, words, &mut backward);
    let plan = Plan {
        n,
        words,
        registers: &registers[..register_count],
        inputs,
        log,
        mask: WHOLE,
    };
    match run_ticks(
        0,
        ticks,
        &mut state,
        marks,
        values,
        &backward[..backward_count],
        plan,
    ) {
        Ok(()) => Ok(ticks),
        Err(clash) => Err(Refused {
            why: Refusal::Clash,
            flow: clash.flow as u32,
            tick: clash.tick,
        }),
    }
}

// The run of a table of `count` rows over a log: each cell into marks and values, tick after tick.
pub fn run(
    count: u32,
    words: &[u32],
    log: &[u32],
    ticks: u32,
    marks: &mut [u8],
    values: &mut [u32],
) -> Result<u32, Refused>
    ensures { Called count words.now log.now ticks marks.old values.old marks.new
        values.new (parts result) }
{
    table::examine(count, words)?;
    replay(count as usize, words, log, ticks, marks, values)
}

// The long run of a table of `count` rows over a log, after the check: the last ticks in marks and values, tick t at place t modulo the window's
// ticks, and for each flow in tallies how many values it had and its last one.
pub fn long_run(
    count: u32,
    words: &[u32],
    log: &[u32],
    ticks: u32,
    marks: &mut [u8],
    values: &mut [u32],
    tallies: &mut [u32],
) -> Result<u32, Refused>
    ensures { LongCalled count words.now log.now ticks marks.old values.old
        tallies.old marks.new values.new tallies.new (parts result) }
{
    let mut clocks = [0u32; checker::CLOCKS];
    let flows = checker::check(count, words, &mut clocks)?;
    long::replay(flows as usize, words, log, ticks, marks, values, tallies)
}
