// Blocks of ticks, stored and restored flow by flow: only cells that are present are visited. Each flow's next due tick and the place of its
// word are carried from block to block.
ghost use Rattle.std.specs.Prelude.{◌≡◌, ◌+◌, ◌≤◌, ◌<◌, ◌^◌, length};
ghost use Rattle.archive.specs.Traces.{stored_of, restored_mark, restored_value, cells_of};
ghost use Rattle.archive.specs.Private.Plans.{clocks_of, words_of, IsTrace, after, due, CarriedBy, TakenBy, MarksPut, ValuesPut, StoredTo, MarksTo, ValuesTo};

use crate::MAX_FLOWS;
use crate::plan::{Next, Plan};

// The ticks of a block: so many of all flows stay in the first cache.
const BLOCK: u32 = 64;

// Where a block of ticks ends.
fn block_end(begin: u32, ticks: u32) -> u32
    requires { (begin < ticks) × (ticks < 2 ^ 24) }
    ensures { (begin < result) × (result ≤ ticks) }
{
    (begin + BLOCK).min(ticks)
}

// Flow f's values, from its next due tick on and below `finish`, are stored from the place of its word on. The tick at which it stops is carried
// on, which a `for` by steps does not give.
fn take_column(
    plan: &Plan,
    f: usize,
    next: &mut Next,
    finish: u32,
    values: &[u32],
    stored: &mut [u32],
)
    requires { (f < plan.now.flows)
        × (finish ≤ plan.now.ticks)
        × (IsTrace plan.now values.now)
        × (next.old.place + due plan.now f next.old finish ≤ length stored.old) }
    ensures moved { next.new ≡ after plan.now f next.old finish }
    ensures taken { TakenBy plan.now f next.old finish values.now stored.old stored.new }
{
    let n = plan.period(f);
    let m = plan.flows;
    let mut tick = next.tick;
    let mut place = next.place;
    while tick < finish {
        stored[place] = values[(tick as usize) * m + f];
        place += 1;
        tick += n;
    }
    next.tick = tick;
    next.place = place;
}

// The values of a block of ticks are stored flow by flow. Where the block ends.
fn take_block(
    plan: &Plan,
    begin: u32,
    values: &[u32],
    next: &mut [Next; MAX_FLOWS],
    stored: &mut [u32],
) -> u32
    requires { (begin < plan.now.ticks)
        × (IsTrace plan.now values.now)
        × (length stored.old ≡ words_of plan.now)
        × (CarriedBy plan.now begin next.old)
        × (StoredTo plan.now values.now begin stored.old) }
    ensures end { (begin < result) × (result ≤ plan.now.ticks) }
    ensures carried { CarriedBy plan.now result next.new }
    ensures words { StoredTo plan.now values.now result stored.new }
{
    let finish = block_end(begin, plan.ticks);
    for f in 0..plan.flows {
        take_column(plan, f, &mut next[f], finish, values, stored);
    }
    finish
}

// The values are stored, a block of ticks after the other, from each flow's first due tick and the place of its first word on.
// A `while`: under `step_by` every invariant would speak of the lesser of a block's begin and the ticks.
pub(crate) fn take_all(
    plan: &Plan,
    values: &[u32],
    next: &mut [Next; MAX_FLOWS],
    stored: &mut [u32],
)
    requires { (IsTrace plan.now values.now)
        × (length stored.old ≡ words_of plan.now)
        × (CarriedBy plan.now 0 next.old) }
    ensures { stored.new ≡ stored_of (clocks_of plan.now) plan.now.flows values.now plan.now.ticks plan.now.flows }
{
    let mut begin = 0;
    while begin < plan.ticks {
        begin = take_block(plan, begin, values, next, stored);
    }
}

// Flow f's words, from the place of its next one on, are given back at its due ticks from the next one on and below `finish`, where it stops as
// above. What a caller lends stays beside the plan here and below: a struct of lent slices would be made anew at every block.
fn put_column(
    plan: &Plan,
    f: usize,
    next: &mut Next,
    finish: u32,
    stored: &[u32],
    marks: &mut [u8],
    values: &mut [u32],
)
    requires { (f < plan.now.flows)
        × (finish ≤ plan.now.ticks)
        × (IsTrace plan.now marks.old)
        × (IsTrace plan.now values.old)
        × (next.old.place + due plan.now f next.old finish ≤ length stored.now) }
    ensures moved { next.new ≡ after plan.now f next.old finish }
    ensures marks { MarksPut plan.now f next.old finish marks.old marks.new }
    ensures values { ValuesPut plan.now f next.old finish stored.now values.old values.new }
{
    let n = plan.period(f);
    let m = plan.flows;
    let mut tick = next.tick;
    let mut place = next.place;
    while tick < finish {
        let cell = (tick as usize) * m + f;
        marks[cell] = 1;
        values[cell] = stored[place];
        place += 1;
        tick += n;
    }
    next.tick = tick;
    next.place = place;
}

// The cells of a block of ticks are made absent, and then filled flow by flow. Where the block ends.
fn put_block(
    plan: &Plan,
    begin: u32,
    stored: &[u32],
    next: &mut [Next; MAX_FLOWS],
    marks: &mut [u8],
    values: &mut [u32],
) -> u32
    requires { (begin < plan.now.ticks)
        × (IsTrace plan.now marks.old)
        × (IsTrace plan.now values.old)
        × (length stored.now ≡ words_of plan.now)
        × (CarriedBy plan.now begin next.old)
        × (MarksTo plan.now begin marks.old)
        × (ValuesTo plan.now stored.now begin values.old) }
    ensures end { (begin < result) × (result ≤ plan.now.ticks) }
    ensures carried { CarriedBy plan.now result next.new }
    ensures marks { MarksTo plan.now result marks.new }
    ensures values { ValuesTo plan.now stored.now result values.new }
{
    let finish = block_end(begin, plan.ticks);
    let from = (begin as usize) * plan.flows;
    let to = (finish as usize) * plan.flows;
    marks[from..to].fill(0);
    values[from..to].fill(0);
    for f in 0..plan.flows {
        put_column(plan, f, &mut next[f], finish, stored, marks, values);
    }
    finish
}

// The words are given back, a block of ticks after the other, from each flow's first due tick and the place of its first word on.
// A `while`: under `step_by` every invariant would speak of the lesser of a block's begin and the ticks.
pub(crate) fn put_all(
    plan: &Plan,
    stored: &[u32],
    next: &mut [Next; MAX_FLOWS],
    marks: &mut [u8],
    values: &mut [u32],
)
    requires { (IsTrace plan.now marks.old)
        × (IsTrace plan.now values.old)
        × (length stored.now ≡ words_of plan.now)
        × (CarriedBy plan.now 0 next.old) }
    ensures marks_after { marks.new ≡ cells_of plan.now.flows (restored_mark (clocks_of plan.now)) plan.now.ticks }
    ensures values_after { values.new ≡ cells_of plan.now.flows (restored_value (clocks_of plan.now) plan.now.ticks stored.now) plan.now.ticks }
{
    let mut begin = 0;
    while begin < plan.ticks {
        begin = put_block(plan, begin, stored, next, marks, values);
    }
}
