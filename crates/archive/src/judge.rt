// Whether a trace is as its clocks say, tick by tick. Each flow's next due tick is carried. What a cell adds is a sum without a branch, so that
// the compiler can take several cells at once.
ghost use Rattle.std.specs.Prelude.{◌≡◌, ◌*◌, ◌≤◌, ◌<◌, eqb};
ghost use Rattle.table.specs.Bits.{bit};
ghost use Rattle.archive.specs.Columns.{cell_fits};
ghost use Rattle.archive.specs.Traces.{trace_fits};
ghost use Rattle.archive.specs.Private.Steps.{TickFits};
ghost use Rattle.archive.specs.Private.Plans.{clocks_of, IsTrace, PeriodsIn};

use crate::MAX_FLOWS;
use crate::plan::Plan;

// 1 where two numbers are equal, else 0: misfits are added without a branch.
fn same(a: u32, b: u32) -> u32
    ensures value { result ≡ bit (eqb a b) }
    ensures upper_bound { result ≤ 1 }
{
    u32::from(a == b)
}

// 0 where a cell is as its clock says, which is due (1) or not (0). Mark and value as C lends them.
fn misfit(due: u32, mark: u8, value: u32) -> u32
    requires { due ≤ 1 }
    ensures result_value { eqb result 0 ≡ cell_fits (eqb due 1) mark value }
    ensures upper_bound { result ≤ 2 }
{
    (1 - same(u32::from(mark), due)) + (1 - due) * (1 - same(value, 0))
}

// Whether the cells of tick t, from the place of its first one on, are as the next due ticks say; those that are due move on by their periods.
// Marks and values are two slices, as C lends them.
fn tick_fits(
    plan: &Plan,
    t: u32,
    first: usize,
    periods: &[u32; MAX_FLOWS],
    marks: &[u8],
    values: &[u32],
    next: &mut [u32; MAX_FLOWS],
) -> bool
    requires { (t < plan.now.ticks)
        × (first ≡ t * plan.now.flows)
        × (PeriodsIn plan.now periods.now)
        × (IsTrace plan.now marks.now)
        × (IsTrace plan.now values.now) }
    ensures { TickFits plan.now.flows t periods.now marks.now values.now next.old next.new result }
{
    let mut wrong: u32 = 0;
    for f in 0..plan.flows {
        let due = same(next[f], t);
        wrong += misfit(due, marks[first + f], values[first + f]);
        next[f] += due * periods[f];
    }
    wrong == 0
}

// Whether a trace is as its clocks say.
pub(crate) fn fits(plan: &Plan, marks: &[u8], values: &[u32]) -> bool
    requires { (IsTrace plan.now marks.now) × (IsTrace plan.now values.now) }
    ensures { result ≡ trace_fits (clocks_of plan.now) plan.now.flows marks.now values.now plan.now.ticks plan.now.flows }
{
    // Two arrays: so the compiler takes several cells at once.
    let mut periods = [0u32; MAX_FLOWS];
    let mut next = [0u32; MAX_FLOWS];
    plan.gather(&mut periods, &mut next);
    // Carried, not multiplied out at each tick.
    let mut first = 0;
    for t in 0..plan.ticks {
        if !tick_fits(plan, t, first, &periods, marks, values, &mut next) {
            return false;
        }
        first += plan.flows;
    }
    true
}
