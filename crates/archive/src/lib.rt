// Traces in the archive: the values of a trace stored flow after flow, and given back.
// A cast by `as` stands where std has no `From`, or a constant may call none; that nothing is lost is proved.
#![tactic(auto)]

ghost use Rattle.std.specs.Prelude.{◌≡◌, ◌*◌, ◌≤◌, List, ℕ, length, MatchResult};
ghost use Rattle.table.specs.Answers.{answer, leaves, parts};
ghost use Rattle.table.specs.Rows.{row_size, max_flows};
ghost use Rattle.calendar.specs.Calendar as calendar;
ghost use Rattle.archive.specs.Answers as answers;
ghost use Rattle.archive.specs.Answers.{size_answer, stored_by, store_answer, stored_after, restored_by, restoring, Restored};
ghost use Rattle.archive.specs.Private.Plans.{clocks_of, words_of, Opens, Refuses};

mod plan; // plan.rt: a plan's clocks, and how many words they give
mod judge; // judge.rt: whether a trace is as its clocks say
mod blocks; // blocks.rt: blocks of ticks, stored and restored

use checker::CLOCKS;
use plan::{Next, Plan};
use semantics::MAX_TICKS;
use table::{ROW_SIZE, Refusal, Refused};

const MAX_FLOWS: usize = table::MAX_FLOWS as usize;

// Whether a row of this kind samples, merges or views. By the number, as the table has it.
fn samples(kind: u32) -> bool
    ensures { result ≡ calendar.samples kind }
{
    matches!(kind, 13..=15 | 17..=18)
}

// Whether none of the m rows does.
fn free(m: usize, words: &[u32]) -> bool
    requires { (m ≤ max_flows) × (row_size * m ≤ length words.now) }
    ensures { result ≡ calendar.free m words.now }
{
    (0..m).all(|f| !samples(words[ROW_SIZE * f]))
}

// The clocks of a plan whose traces can be stored, which are kept in `clocks`: the check's refusals, then too many ticks and rows with conditions.
fn prepare<'a>(
    count: u32,
    words: &[u32],
    ticks: u32,
    clocks: &'a mut [u32; CLOCKS],
) -> Result<Plan<'a>, Refused>
    ensures { MatchResult result (Opens count words.now ticks) (Refuses count words.now ticks) }
{
    checker::check(count, words, clocks)?;
    if MAX_TICKS < ticks {
        return Err(Refusal::TooManyTicks.at(0));
    }
    let flows = count as usize;
    if !free(flows, words) {
        return Err(Refusal::HasConditions.at(0));
    }
    Ok(Plan {
        flows,
        ticks,
        clocks,
    })
}

// How many words a trace of so many ticks has in store.
pub fn stored_words(count: u32, words: &[u32], ticks: u32) -> Result<u32, Refused>
    ensures { parts result ≡ size_answer count words.now ticks }
{
    let mut clocks = [0u32; CLOCKS];
    let mut next = [Next::NONE; MAX_FLOWS];
    let plan = prepare(count, words, ticks, &mut clocks)?;
    Ok(plan.place_words(&mut next))
}

// Whether so many marks, values and stored words are exactly as many as there are cells and words.
fn lengths_fit(plan: &Plan, size: u32, marks: usize, values: usize, stored: usize) -> bool
    requires { size ≡ words_of plan.now }
    ensures { result ≡ answers.lengths_fit plan.now.flows plan.now.ticks (clocks_of plan.now) marks values stored }
{
    let cells = plan.cells();
    marks == cells && values == cells && stored == size as usize
}

// A trace stored by its plan's clocks: a wrong length, a cell that is not as its clock says, and then its words.
fn store_by(plan: &Plan, marks: &[u8], values: &[u32], stored: &mut [u32]) -> Result<u32, Refused>
    ensures value { parts result ≡ answer length (stored_by plan.now.flows plan.now.ticks marks.now values.now (length stored.old) (clocks_of plan.now)) }
    ensures stored_after { stored.new ≡ leaves (λ (l : List ℕ). l)
        (stored_by plan.now.flows plan.now.ticks marks.now values.now (length stored.old) (clocks_of plan.now)) stored.old }
{
    let mut next = [Next::NONE; MAX_FLOWS];
    let size = plan.place_words(&mut next);
    if !lengths_fit(plan, size, marks.len(), values.len(), stored.len()) {
        return Err(Refusal::WrongLength.at(0));
    }
    if !judge::fits(plan, marks, values) {
        return Err(Refusal::OffCalendar.at(0));
    }
    blocks::take_all(plan, values, &mut next, stored);
    Ok(size)
}

// Stores a trace of `ticks` ticks of an accepted plan without conditions: flow after flow the values present, each flow's in time order.
// The count of words, or the first refusal, which leaves the words as they were.
pub fn store(
    count: u32,
    words: &[u32],
    ticks: u32,
    marks: &[u8],
    values: &[u32],
    stored: &mut [u32],
) -> Result<u32, Refused>
    ensures answered { parts result ≡ store_answer count words.now ticks marks.now values.now (length stored.old) }
    ensures stored { stored.new ≡ stored_after count words.now ticks marks.now values.now stored.old }
{
    let mut clocks = [0u32; CLOCKS];
    let plan = prepare(count, words, ticks, &mut clocks)?;
    store_by(&plan, marks, values, stored)
}

// A trace restored by its plan's clocks: a wrong length, and then its cells.
fn restore_by(
    plan: &Plan,
    stored: &[u32],
    marks: &mut [u8],
    values: &mut [u32],
) -> Result<u32, Refused>
    ensures { Restored plan.now.flows plan.now.ticks
        (restored_by plan.now.flows plan.now.ticks (length stored.now) (length marks.old) (length values.old) (clocks_of plan.now))
        stored.now marks.old values.old marks.new values.new (parts result) }
{
    let mut next = [Next::NONE; MAX_FLOWS];
    let size = plan.place_words(&mut next);
    if !lengths_fit(plan, size, marks.len(), values.len(), stored.len()) {
        return Err(Refusal::WrongLength.at(0));
    }
    blocks::put_all(plan, stored, &mut next, marks, values);
    Ok(plan.cells() as u32)
}

// Restores a stored trace of `ticks` ticks: marks by the clocks, values where present and 0 where absent. The count of cells, or the first
// refusal, which leaves marks and values as they were.
pub fn restore(
    count: u32,
    words: &[u32],
    ticks: u32,
    stored: &[u32],
    marks: &mut [u8],
    values: &mut [u32],
) -> Result<u32, Refused>
    ensures { Restored count ticks
        (restoring count words.now ticks (length stored.now) (length marks.old) (length values.old))
        stored.now marks.old values.old marks.new values.new (parts result) }
{
    let mut clocks = [0u32; CLOCKS];
    let plan = prepare(count, words, ticks, &mut clocks)?;
    restore_by(&plan, stored, marks, values)
}
