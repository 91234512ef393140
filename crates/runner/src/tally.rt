// The tallies: for each flow how many values it had, and its last one.
ghost use Rattle.std.specs.Prelude.{◌≡◌, ℕ, ◌+◌, ◌-◌, ◌*◌, ◌^◌, ◌<◌, ◌≤◌, cond, List, length, drop, set, ◌==◌, slice_index, slice_set};
ghost use Rattle.table.specs.Rows.{max_flows};
ghost use Rattle.semantics.specs.Runs.{Ticks};
ghost use Rattle.semantics.specs.Windows.{tally_size, Tallied};
ghost use Rattle.runner.specs.Private.Placed.{Fitting, Recalls, Low, Counted, count_limit};

use crate::plan::Plan;

// How many words a tally has.
pub(crate) const TALLY_SIZE: usize = 2;

// Flow f's tally takes its cell. Mark, value and the two words of a tally stand as C lends them.
fn add_cell(f: usize, mark: u8, value: u32, tallies: &mut [u32])
    requires { (f < max_flows)
        × (tally_size * f + 1 < length tallies.old)
        × (slice_index tallies.old (tally_size * f) < count_limit) }
    ensures { tallies.new
        ≡ cond (mark == 0) tallies.old
        (slice_set (slice_set tallies.old (tally_size * f) (slice_index tallies.old (tally_size * f) + 1)) (tally_size * f + 1) value) }
{
    if mark == 0 {
        return;
    }
    tallies[TALLY_SIZE * f] += 1;
    tallies[TALLY_SIZE * f + 1] = value;
}

// The tallies of the first k flows take their cells, the first of which stands at a place.
fn add(first: usize, k: usize, marks: &[u8], values: &[u32], tallies: &mut [u32])
    requires { (k ≤ max_flows)
        × (first + k ≤ length marks.now)
        × (first + k ≤ length values.now)
        × (tally_size * k ≤ length tallies.old)
        × (Low k count_limit tallies.old) }
    ensures { Counted first k marks.now values.now tallies.old tallies.new }
{
    for f in 0..k {
        add_cell(f, marks[first + f], values[first + f], tallies);
    }
}

// The tallies take the cells of the ticks from one up to another, each of which stands at its place.
pub(crate) fn add_ticks(
    plan: Plan,
    from: u32,
    to: u32,
    marks: &[u8],
    values: &[u32],
    tallies: &mut [u32],
)
    requires { (from ≤ to)
        × (to < 2 ^ 24)
        × (Fitting (plan.mask + 1) plan.n to (length marks.now))
        × (Fitting (plan.mask + 1) plan.n to (length values.now))
        × (tally_size * plan.n ≤ length tallies.old)
        × (Low plan.n (from + 1) tallies.old) }
    ensures { (past : Ticks) (ts : List ℕ)
        → length past ≡ to
        → to ≤ from + (plan.entry.mask + 1)
        → Recalls (plan.entry.mask + 1) plan.entry.n to past marks.now values.now
        → Tallied plan.entry.n (drop (to - from) past) ts tallies.old
        → Tallied plan.entry.n past ts tallies.new }
{
    for t in from..to {
        add(plan.first_cell(t), plan.n, marks, values, tallies);
    }
}
