// The long run of a table that the check accepts: its last ticks in a window, and a tally of each flow. No tick of it clashes.
ghost use Rattle.std.specs.Prelude.{◌≡◌, ◌+◌, ◌*◌, ◌^◌, ◌<◌, ◌≤◌, [], length};
ghost use Rattle.table.specs.Answers.{parts};
ghost use Rattle.semantics.specs.Windows.{tally_size, Tallied};
ghost use Rattle.runner.specs.Long.{window_ticks, LongRan, LongCalled};
ghost use Rattle.runner.specs.Private.Ready.{Plain, Clocked, AllCarry, numbers, looks_back};
ghost use Rattle.runner.specs.Private.Plans.{plan_rows};
ghost use Rattle.runner.specs.Private.Placed.{Nearby, Unclashed};

use crate::carried::State;
use crate::plan::Plan;
use crate::state::{LATER, REGISTER};
use crate::tally::TALLY_SIZE;
use crate::{carried, state, tally};
use table::{MAX_FLOWS, Refusal, Refused};

// The most ticks of a long run.
const MOST_LONG_TICKS: u32 = 4194303;

// The ticks of its window, a power of 2.
const WINDOW: usize = 131072;

// The ticks that are worked out before they are tallied: few enough for their cells to stay in the first cache.
const STRETCH: u32 = 64;

// All ticks, a stretch at a time: no tick clashes, so each is filled, and is then tallied. A `while`: the last stretch
// may be shorter. What a caller lends stays beside the plan, as in a run.
fn long_ticks(
    plan: Plan,
    backward: &[u32],
    ticks: u32,
    state: &mut State,
    marks: &mut [u8],
    values: &mut [u32],
    tallies: &mut [u32],
)
    requires { (plan.mask + 1 ≡ window_ticks)
        × (window_ticks * plan.n ≤ length marks.old)
        × (window_ticks * plan.n ≤ length values.old)
        × (ticks < 2 ^ 24)
        × (AllCarry (plan_rows plan) 0 [] state.old)
        × (tally_size * plan.n ≤ length tallies.old)
        × (Tallied plan.n [] tallies.old tallies.old)
        × (Nearby window_ticks (plan_rows plan) plan.log.now)
        × (Unclashed (plan_rows plan) plan.log.now)
        × (backward.now ≡ numbers looks_back plan.n plan.words.now) }
    ensures { LongRan plan.entry.n plan.entry.log.now ticks (plan_rows plan.entry) marks.old values.old
        tallies.old marks.new values.new tallies.new }
{
    let mut t: u32 = 0;
    while t < ticks {
        let next = (t + STRETCH).min(ticks);
        let _ = crate::run_ticks(t, next, state, marks, values, backward, plan);
        tally::add_ticks(plan, t, next, marks, values, tallies);
        t = next;
    }
}

// The long run of such a table: its limits, 35 where the tallies have too few words, and then all its ticks. Beside the run's `replay`: a function of
// what both do first would hand on eight values.
pub(crate) fn replay(
    n: usize,
    words: &[u32],
    log: &[u32],
    ticks: u32,
    marks: &mut [u8],
    values: &mut [u32],
    tallies: &mut [u32],
) -> Result<u32, Refused>
    requires { (Plain n words.now) × (Clocked n words.now) }
    ensures { LongCalled n words.now log.now ticks marks.old values.old
        tallies.old marks.new values.new tallies.new (parts result) }
{
    let mut state = [carried::NOTHING; MAX_FLOWS as usize];
    let inputs = state::start(n, words, &mut state) as usize;
    crate::limits(
        ticks,
        MOST_LONG_TICKS,
        log.len(),
        inputs,
        WINDOW * n,
        Refusal::ShortWindow,
        marks.len(),
        values.len(),
    )?;
    if tallies.len() < TALLY_SIZE * n {
        return Err(Refusal::ShortWindow.at(0));
    }
    tallies[..TALLY_SIZE * n].fill(0);
    let mut registers = [0u32; MAX_FLOWS as usize];
    let mut backward = [0u32; MAX_FLOWS as usize];
    let register_count = state::listed(REGISTER, table::KINDS, n, words, &mut registers);
    let backward_count = state::listed(LATER, table::FIRST_VIEW, n, words, &mut backward);
    let plan = Plan {
        n,
        words,
        registers: &registers[..register_count],
        inputs,
        log,
        mask: WINDOW - 1,
    };
    long_ticks(
        plan,
        &backward[..backward_count],
        ticks,
        &mut state,
        marks,
        values,
        tallies,
    );
    Ok(ticks)
}
