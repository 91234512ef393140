// The check: each flow's clock, or a refusal.
// A cast by `as` stands where std has no `From`, or a constant may call none; that nothing is lost is proved.
#![tactic(auto)]

mod rules;

ghost use Rattle.std.specs.Prelude.{◌≡◌, [], ◌*◌, ◌≤◌, length, take, flat_map};
ghost use Rattle.table.specs.Answers.{good, answer, over, parts};
ghost use Rattle.table.specs.Rows.{bad_register, max_flows};
ghost use Rattle.table.specs.Plain.{row_words, table_of};
ghost use Rattle.checker.specs.Rules.{clocks_from, clocks_of};
ghost use Rattle.checker.specs.Answers.{clock_size, check_answer, clocks_after, check_number};
ghost use Rattle.checker.specs.Private.Kept.{kept_at, given, combined, rule, fits_in, source_in, place, rows_of, Assigned};

use rules::{condition, every, faster, head, later, merged, same, sampled, slower, tail, viewed};
use table::{ROW_SIZE, Record, Refusal, Refused, record_at, word_at};

// A clock as the check keeps it. A condition is one word, and those that are not used are 0: a list of as many as there are would need the heap.
#[derive(Clone, Copy)]
struct Clock {
    period: u32,
    phase: u32,
    count: u32,
    conditions: [u32; MAX_CONDITIONS as usize],
}

// The largest period or phase of a clock, its most conditions, how many words it has, and the words of the most clocks.
pub const MAX_DERIVED: u64 = 65535;

pub const MAX_CONDITIONS: u32 = 4;

pub const CLOCK_SIZE: usize = 11;

pub const CLOCKS: usize = CLOCK_SIZE * FLOWS;

// How many clocks the check keeps.
const FLOWS: usize = table::MAX_FLOWS as usize;

// In a condition's word the view period stands above flow and truth, which are below this.
const VIEW_UNIT: u32 = 2 * table::MAX_FLOWS;

// The clock of flow f among those kept. Flows are below the divisor: the remainder is the flow itself.
fn clock_at(kept: &[Clock; FLOWS], f: u32) -> &Clock
    ensures { result.now ≡ kept_at kept.now f }
{
    &kept[(f % table::MAX_FLOWS) as usize]
}

// Kinds 2 to 6.
fn combined(a: &Clock, b: &Clock) -> Result<Clock, Refusal>
    ensures { result ≡ combined a.now b.now }
{
    if !same(a, b) {
        return Err(Refusal::ClocksDiffer);
    }
    Ok(*a)
}

// A row's clock from the clocks kept, or why it is refused: one decision over the kind, in the paper's form.
#[tactic(auto, unfolding(crate::specs::Private::Kept::rule, crate::specs::Private::Kept::rule_of, table::specs::Rows::kinds))]
fn rule(row: Record, kept: &[Clock; FLOWS]) -> Result<Clock, Refusal>
    ensures { result ≡ rule (kept_at kept.now) row.kind row.one row.two row.three }
{
    let (p, q, r) = (row.one, row.two, row.three);
    match row.kind {
        0 => Ok(every(p, q)),
        1 => Ok(every(q, r)),
        2..=6 => combined(clock_at(kept, p), clock_at(kept, q)),
        7 => Ok(*clock_at(kept, q)),
        8 => faster(clock_at(kept, p), q, r),
        9 => slower(clock_at(kept, p), q),
        10 => later(clock_at(kept, p), q),
        11 => head(clock_at(kept, p), r),
        12 => tail(clock_at(kept, p)),
        13 => sampled(clock_at(kept, p), clock_at(kept, q), condition(q, true, 0)),
        14 => sampled(clock_at(kept, p), clock_at(kept, q), condition(q, false, 0)),
        15 => merged(p, clock_at(kept, p), clock_at(kept, q), clock_at(kept, r)),
        16 => Err(Refusal::UnknownKind),
        17 => viewed(
            clock_at(kept, p),
            clock_at(kept, q),
            r,
            condition(q, true, r),
        ),
        18 => viewed(
            clock_at(kept, p),
            clock_at(kept, q),
            r,
            condition(q, false, r),
        ),
        19..=4294967295 => Err(Refusal::UnknownKind),
    }
}

// A table in plain form that passed its test: so many rows, of four words each.
#[derive(Clone, Copy)]
struct Plan<'a> {
    count: u32,
    words: &'a [u32],
    ghost few: { count ≤ max_flows },
    ghost passed: { table_of count words.now ≡ good (rows_of count words.now) },
}

impl<'a> Plan<'a> {
    // The clocks of the rows, row by row, each kept for those after it.
    fn assign(self, kept: &mut [Clock; FLOWS]) -> Result<u32, Refused>
        ensures value { parts result ≡ answer length (clocks_from [] (rows_of self.entry.count self.entry.words.now)) }
        ensures assigned { Assigned (clocks_from [] (rows_of self.entry.count self.entry.words.now)) kept.new }
    {
        for f in 0..self.count {
            let row = record_at(self.words, f);
            match rule(row, kept) {
                Ok(k) => kept[f as usize] = k,
                Err(why) => return Err(why.at(f)),
            }
        }
        Ok(self.count)
    }

    // Whether row f, where it is a register (by the number of its kind, as the words have it), has a source with its beat's clock.
    fn source_fits(self, kept: &[Clock; FLOWS], f: u32) -> bool
        ensures { result ≡ source_in kept.now (row_words self.entry.words.now f) }
    {
        if word_at(self.words, ROW_SIZE * (f as usize)) != 7 {
            return true;
        }
        let row = record_at(self.words, f);
        same(clock_at(kept, row.three), clock_at(kept, row.two))
    }

    // The lowest register whose source has another clock than its beat. A for: find takes 5 instructions a row more.
    fn bad_register(self, kept: &[Clock; FLOWS]) -> Option<u32>
        ensures { place result ≡ bad_register (fits_in kept.now) 0 (rows_of self.entry.count self.entry.words.now) }
    {
        for f in 0..self.count {
            if !self.source_fits(kept, f) {
                return Some(f);
            }
        }
        None
    }

    // The clocks of the rows, and then the registers' sources.
    fn judge(self, kept: &mut [Clock; FLOWS]) -> Result<u32, Refused>
        ensures value { parts result ≡ answer length (clocks_of (rows_of self.entry.count self.entry.words.now)) }
        ensures assigned { Assigned (clocks_of (rows_of self.entry.count self.entry.words.now)) kept.new }
    {
        let assigned = self.assign(kept)?;
        match self.bad_register(kept) {
            Some(f) => Err(Refusal::ClocksDiffer.at(f)),
            None => Ok(assigned),
        }
    }
}

// Gives out a clock, as C reads it: the view periods apart from flows and truths. Word by word: copied from an array it takes 15 instructions more.
fn give(k: &Clock, words: &mut [u32])
    requires { length words.old ≡ clock_size }
    ensures { words.new ≡ given k.now }
{
    let [a, b, c, d] = k.conditions;
    words[0] = k.period;
    words[1] = k.phase;
    words[2] = k.count;
    words[3] = a % VIEW_UNIT;
    words[4] = b % VIEW_UNIT;
    words[5] = c % VIEW_UNIT;
    words[6] = d % VIEW_UNIT;
    words[7] = a / VIEW_UNIT;
    words[8] = b / VIEW_UNIT;
    words[9] = c / VIEW_UNIT;
    words[10] = d / VIEW_UNIT;
}

// Gives out the clocks kept of n flows.
fn give_all(n: u32, kept: &[Clock; FLOWS], clocks: &mut [u32])
    requires { (n ≤ max_flows) × (clock_size * n ≤ length clocks.old) }
    ensures { clocks.new ≡ over (flat_map given (take n kept.now)) clocks.old }
{
    for f in 0..n as usize {
        let at = CLOCK_SIZE * f;
        give(&kept[f], &mut clocks[at..at + CLOCK_SIZE]);
    }
}

// The clocks of a table in plain form: their words flow after flow, or the first refusal, which leaves the buffer as it was.
pub fn check(count: u32, words: &[u32], clocks: &mut [u32]) -> Result<u32, Refused>
    ensures answered { parts result ≡ check_answer count words.now (length clocks.old) }
    ensures stored { clocks.new ≡ clocks_after count words.now clocks.old }
{
    table::examine(count, words)?;
    let plan = Plan { count, words };
    let size = CLOCK_SIZE * (count as usize);
    if clocks.len() < size {
        return Err(Refusal::NoRoom.at(0));
    }
    // By from_fn: `[every(0, 0); FLOWS]` is laid down a second time over the zeros that a local begins with, and a check of one flow takes twice the time.
    let mut kept: [Clock; FLOWS] = std::array::from_fn(|_| every(0, 0));
    let judged = plan.judge(&mut kept)?;
    give_all(count, &kept, clocks);
    Ok(judged)
}

// The number that the check answers, given room for the clocks: 0 where it accepts the table.
pub fn number(count: u32, words: &[u32]) -> u32
    ensures { result ≡ check_number count words.now }
{
    let mut clocks = [0u32; CLOCKS];
    match check(count, words, &mut clocks) {
        Ok(_) => 0,
        Err(refused) => refused.why.number(),
    }
}
