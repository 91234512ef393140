// The least part of a plan that the check still answers with 21.
// A cast by `as` stands where std has no `From`, or a constant may call none; that nothing is lost is proved.
#![tactic(auto)]

ghost use Rattle.std.specs.Prelude.{◌≡◌, true, ◌*◌, ◌≤◌, MatchResult, length};
ghost use Rattle.table.specs.Answers.{good, parts};
ghost use Rattle.table.specs.Rows.{max_flows, row_size};
ghost use Rattle.table.specs.Plain.{table_of, rows_in};
ghost use Rattle.reach.specs.Sets.{set_of};
ghost use Rattle.reach.specs.Reach.{sets_of};
ghost use Rattle.least.specs.Answers.{differing, least_set, least_answer, part_after, flows_answer, flows_after};
ghost use Rattle.least.specs.Private.Steps.{part_differing, Chosen, Giving, Refusing};

use part::{rank, store_flows, store_rows};
use table::{MAX_FLOWS, ROW_SIZE, Refusal, Refused};

mod part; // part.rt: the rows and the flows of a part

// A plan: the count of its flows and its words, which are a table.
#[derive(Clone, Copy)]
struct Plan<'a> {
    count: u32,
    words: &'a [u32],
    ghost is_table: { table_of count words.now ≡ good (rows_in (table_of count words.now)) },
    ghost few: { count ≤ max_flows },
}

// The words of the most flows.
const WORDS: usize = ROW_SIZE * (MAX_FLOWS as usize);

// Whether the check answers a plan with 21. By its number: `checker::number` is public.
fn differs(count: u32, words: &[u32]) -> bool
    ensures { result ≡ differing count words.now }
{
    checker::number(count, words) == Refusal::ClocksDiffer.number()
}

impl Plan<'_> {
    // Whether the check answers the part of these flows with 21. The rows are for laying it down.
    #[tactic(auto, using(crate::proofs::Numbers::below_le))]
    fn part_differs(self, set: u64, rows: &mut [u32]) -> bool
        requires { length rows.old ≡ row_size * max_flows }
        ensures { result ≡ part_differing self.entry.count self.entry.words.now set }
    {
        let count = store_rows(self.count, self.words, set, rows);
        differs(count, &rows[..ROW_SIZE * (count as usize)])
    }

    // The first with fewest flows of the closures that the check answers with 21, where there is one.
    fn choose(self, sets: &[u64]) -> Option<u64>
        requires { sets.now ≡ sets_of self.count self.words.now self.count }
        ensures { Chosen self.entry.count self.entry.words.now self.entry.count result }
    {
        let mut rows = [0u32; WORDS];
        let mut least: Option<u64> = None;
        for set in sets {
            let count = rank(*set, self.count);
            let fewer = least.is_none_or(|x| count < rank(x, self.count));
            if fewer && self.part_differs(*set, &mut rows) {
                least = Some(*set);
            }
        }
        least
    }

    // The flows of the least part.
    fn least_set(self) -> u64
        requires { differing self.count self.words.now ≡ true }
        ensures { result ≡ set_of (least_set self.entry.count self.entry.words.now) self.entry.count }
    {
        let mut sets = [0u64; MAX_FLOWS as usize];
        reach::reach(self.count, self.words, &mut sets).unwrap();
        self.choose(&sets[..self.count as usize]).unwrap()
    }
}

// The flows of the least part, or why there are none to give.
fn seek(count: u32, words: &[u32]) -> Result<u64, Refused>
    ensures { MatchResult result (Giving count words.now) (Refusing count words.now) }
{
    table::examine(count, words)?;
    if !differs(count, words) {
        return Err(Refusal::NotDiffering.at(0));
    }
    let plan = Plan { count, words };
    Ok(plan.least_set())
}

// The part of a plan with fewest flows that the check still answers with 21, its flows renumbered in order: the count of its flows, and four words
// a flow; or the first refusal, which leaves the part.
pub fn least(count: u32, words: &[u32], part: &mut [u32]) -> Result<u32, Refused>
    ensures answered { parts result ≡ least_answer count words.now (length part.old) }
    ensures stored { part.new ≡ part_after count words.now part.old }
{
    let set = seek(count, words)?;
    if part.len() < ROW_SIZE * (rank(set, count) as usize) {
        return Err(Refusal::NoRoom.at(0));
    }
    Ok(store_rows(count, words, set, part))
}

// The numbers that the flows of that part have in the plan, in order: their count, and a word a flow; or the first refusal, which leaves the flows.
pub fn least_flows(count: u32, words: &[u32], flows: &mut [u32]) -> Result<u32, Refused>
    ensures answered { parts result ≡ flows_answer count words.now (length flows.old) }
    ensures stored { flows.new ≡ flows_after count words.now flows.old }
{
    let set = seek(count, words)?;
    if flows.len() < rank(set, count) as usize {
        return Err(Refusal::NoRoom.at(0));
    }
    Ok(store_flows(count, set, flows))
}
