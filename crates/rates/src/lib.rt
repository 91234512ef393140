// The call that fills in the rates of inputs that have none written.
// A cast by `as` stands where std has no `From`, or a constant may call none; that nothing is lost is proved.
#![tactic(auto)]

mod steps; // steps.rt: how a rate spreads along a row

ghost use Rattle.std.specs.Prelude.{◌≡◌, ℕ, true, ◌+◌, ◌*◌, ◌<◌, ◌≤◌, eqb, length, take, MatchOption};
ghost use Rattle.table.specs.Answers.{good, over, parts};
ghost use Rattle.table.specs.Rows.{kind_count, max_flows, row_size};
ghost use Rattle.table.specs.Plain.{words_of, joined, draft_of, rows_in};
ghost use Rattle.checker.specs.Answers.{check_number};
ghost use Rattle.rates.specs.Fillings.{filled, Filled};
ghost use Rattle.rates.specs.Private.Spread.{row_made, join_fields, rates_in, Stepped, Passed, Closed, ClosedAt, Starting, Settled, Known, LowestUnknown};

use steps::{NO_RATE, Rate, begin, fall, fill_row, rise};
use table::{
    FIRST_VIEW, FlowFields, MAX_FLOWS, ROW_SIZE, Record, Refusal, Refused, put_record, record_at,
};

// The flows of the longest plan, and their words.
const FLOWS: usize = MAX_FLOWS as usize;

const WORDS: usize = ROW_SIZE * FLOWS;

// What is known of the rates of the flows.
type Rates = [Option<Rate>; FLOWS];

// One step between the result of row f and flow a, where the test is passed, which tells whether a field holds a flow: whether it adds a rate.
fn join(rates: &mut Rates, r: Record, f: u32, on: bool, a: u32) -> bool
    requires { (r.kind < kind_count) × (f < max_flows) × (on ≡ true → a < max_flows) }
    ensures { Stepped on (row_made (words_of r)) f a rates.old result rates.new }
{
    if !on {
        return false;
    }
    match (rates[f as usize], rates[a as usize]) {
        (None, Some(rate)) => {
            rates[f as usize] = Some(rise(r, rate));
            true
        }
        (Some(rate), None) => {
            rates[a as usize] = Some(fall(r, rate));
            true
        }
        _ => false,
    }
}

// The fields of a kind, by its number, that hold the flows with which a row joins its result: of a view the first only.
fn join_fields(kind: u32) -> FlowFields
    ensures { result ≡ join_fields kind }
{
    let flows = table::flow_fields(kind);
    if kind < FIRST_VIEW {
        return flows;
    }
    FlowFields {
        two: false,
        three: false,
        ..flows
    }
}

// Whether the check accepts the table in the first rows. By its number: `checker::number` is public.
fn accepted(count: u32, rows: &[u32]) -> bool
    requires { row_size * count ≤ length rows.now }
    ensures { result ≡ eqb (check_number count (take (row_size * count) rows.now)) 0 }
{
    let size = ROW_SIZE * (count as usize);
    checker::number(count, &rows[..size]) == 0
}

// A draft that was examined and not refused: the count of its flows and its words.
#[derive(Clone, Copy)]
struct Draft<'a> {
    count: u32,
    words: &'a [u32],
    ghost is_draft: { draft_of count words.now ≡ good (rows_in (draft_of count words.now)) },
    ghost few: { count ≤ max_flows },
}

impl Draft<'_> {
    // The steps between the result of row f and each flow with which the row joins it.
    fn link(self, f: u32, rates: &mut Rates) -> bool
        requires { f < self.count }
        ensures { Passed self.entry.count self.entry.words.now (ClosedAt self.entry.words.now rates.old f) rates.old rates.new result }
    {
        let r = record_at(self.words, f);
        let flows = join_fields(r.kind);
        let a = join(rates, r, f, flows.one, r.one);
        let b = join(rates, r, f, flows.two, r.two);
        let c = join(rates, r, f, flows.three, r.three);
        a | b | c
    }

    // A pass over the rows: whether it adds a rate.
    fn pass(self, rates: &mut Rates) -> bool
        ensures { Passed self.entry.count self.entry.words.now (Closed self.entry.count self.entry.words.now rates.old) rates.old rates.new result }
    {
        let mut news = false;
        for f in 0..self.count {
            news |= self.link(f, rates);
        }
        news
    }

    // The rates of the rated rows, where none is known yet.
    fn start(self, rates: &mut Rates)
        requires { Starting self.count self.words.now 0 rates.old }
        ensures { Starting self.entry.count self.entry.words.now self.entry.count rates.new }
    {
        for f in 0..self.count {
            rates[f as usize] = begin(record_at(self.words, f));
        }
    }

    // Spreads the rates of the rated rows until nothing is left to spread: how many passes that takes is not known before. The rates are lent: handed
    // back they would be copied.
    fn spread(self, rates: &mut Rates)
        requires { Starting self.count self.words.now 0 rates.old }
        ensures { Settled self.entry.count self.entry.words.now rates.new }
    {
        self.start(rates);
        while self.pass(rates) {}
    }

    // The lowest flow whose rate is not known.
    fn lowest(self, rates: &Rates) -> Option<u32>
        ensures { MatchOption result ((g : ℕ) → g < self.entry.count → Known rates.now g) (LowestUnknown self.entry.count rates.now) }
    {
        (0..self.count).find(|f| rates[*f as usize].is_none())
    }

    // The filled rows, from the first word on.
    fn store(self, rates: &Rates, rows: &mut [u32; WORDS])
        ensures { rows.new ≡ over (joined (filled self.entry.count self.entry.words.now (rates_in rates.now))) rows.old }
    {
        for f in 0..self.count {
            let rate = rates[f as usize].unwrap_or(NO_RATE);
            put_record(rows, f, fill_row(record_at(self.words, f), rate));
        }
    }

    // Fills the draft in: the count of flows, or why there is no filling to give.
    fn fill(self, filled: &mut [u32]) -> Result<u32, Refused>
        ensures { Filled self.entry.count self.entry.words.now filled.old (parts result) filled.new }
    {
        let mut rates = [None; FLOWS];
        self.spread(&mut rates);
        if let Some(f) = self.lowest(&rates) {
            return Err(Refusal::Unjoined.at(f));
        }
        let mut rows = [0u32; WORDS];
        self.store(&rates, &mut rows);
        if !accepted(self.count, &rows) {
            return Err(Refusal::ClocksDiffer.at(0));
        }
        let size = ROW_SIZE * (self.count as usize);
        if filled.len() < size {
            return Err(Refusal::NoRoom.at(0));
        }
        table::copy(size, &rows, filled);
        Ok(self.count)
    }
}

// Fills in period and phase of each unrated input: the count of flows, and four words a flow; or the first refusal, which leaves the buffer as it was.
pub fn fill(count: u32, words: &[u32], filled: &mut [u32]) -> Result<u32, Refused>
    ensures { Filled count words.now filled.old (parts result) filled.new }
{
    table::examine_draft(count, words)?;
    Draft { count, words }.fill(filled)
}
