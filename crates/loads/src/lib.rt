// The load page of a plan, as text: what each flow costs, and the total.
// A cast by `as` stands where std has no `From`, or a constant may call none; that nothing is lost is proved.
#![tactic(auto)]

ghost use Rattle.std.specs.Prelude.{◌≡◌, ◌*◌, ◌%◌, ◌^◌, ◌≤◌, ◌<◌, length, map};
ghost use Rattle.text.specs.Text.{Wrote};
ghost use Rattle.text.specs.Writers.{Writes};
ghost use Rattle.table.specs.Answers.{parts};
ghost use Rattle.table.specs.Rows.{max_flows};
ghost use Rattle.loads.specs.Loads.{rounded, max_load, load, key, sorted, field, line_text, lines_text, total, total_text, page_text, page_answer, page_after};

use checker::{CLOCK_SIZE, CLOCKS};
use table::{Refusal, Refused, word_at};
use text::Writer;

const MAX_FLOWS: u64 = table::MAX_FLOWS as u64;

// One more than the largest phase.
const PHASES: u64 = checker::MAX_DERIVED + 1;

// The bytes of a line.
pub const LINE_SIZE: usize = 26;

// The flows of a plan that was accepted: how many, the words of their clocks, and their worst times.
#[derive(Clone, Copy)]
struct Flows<'a> {
    count: u32,
    clocks: &'a [u32],
    times: &'a [u16],
    ghost few: { count ≤ max_flows },
}

// 1000 times the worst time divided by the period, to the nearest whole, the half going to the even one; 0 over a period of 0, which no clock has.
#[tactic(auto, using(crate::proofs::Rounding::load_down, crate::proofs::Rounding::load_up, crate::proofs::Rounding::load_bound))]
fn load(worst: u16, period: u32) -> u32
    ensures value { result ≡ rounded (1000 * worst) period }
    ensures upper_bound { result ≤ max_load }
{
    if period == 0 {
        return 0;
    }
    let x = 1000 * u32::from(worst);
    let whole = x / period;
    let rest = x % period;
    // One more where more than half of the period is left, or half and the whole is odd.
    let odd = whole % 2;
    if 2 * rest + odd <= period {
        whole
    } else {
        whole + 1
    }
}

// Writes a number, right-aligned in a width, and a space.
fn put_field(writer: &mut Writer, width: usize, n: u32)
    ensures { Writes (field width n) writer.old writer.new }
{
    writer.put_right(width, n);
    writer.put(b' ');
}

// Writes the last line.
fn put_total(writer: &mut Writer, sum: u32)
    ensures { Writes (total_text sum) writer.old writer.new }
{
    writer.put_bytes(b"total");
    writer.put_right(20, sum);
    writer.put(b'\n');
}

impl Flows<'_> {
    ghost use Rattle.loads.specs.Private.Words.{line_at, lines_of, line_by};

    // The load of flow f. Here and below a clock's words are read by their place, as C reads them.
    fn load_of(&self, f: u32) -> u32
        requires { f < max_flows }
        ensures value { result ≡ load (line_at self.now f) }
        ensures upper_bound { result ≤ max_load }
    {
        let worst = self.times.get(f as usize).copied().unwrap_or(0);
        load(worst, word_at(self.clocks, CLOCK_SIZE * (f as usize)))
    }

    // The sum of the loads. A for: that the sum fits is known of the loads so far.
    fn sum(&self) -> u32
        ensures { result ≡ total (lines_of self.now) }
    {
        let mut sum: u32 = 0;
        for f in 0..self.count {
            sum += self.load_of(f);
        }
        sum
    }

    // The key of flow f, by which lines stand: by period, equal periods by phase, and then by flow. Its remainder by MAX_FLOWS is the flow.
    fn key(&self, f: u32) -> u64
        requires { f < max_flows }
        ensures value { result ≡ key (line_at self.now f) }
        ensures upper_bound { result < 2 ^ 63 }
    {
        let from = CLOCK_SIZE * (f as usize);
        let period = u64::from(word_at(self.clocks, from));
        let phase = u64::from(word_at(self.clocks, from + 1));
        MAX_FLOWS * (PHASES * period + phase) + u64::from(f)
    }

    // Puts the keys of all flows into a part that has a place for each, the least first.
    fn sort_keys(&self, keys: &mut [u64])
        requires { length keys.old ≡ self.now.count }
        ensures { keys.new ≡ map key (sorted (lines_of self.now)) }
    {
        for f in 0..self.count {
            keys[f as usize] = self.key(f);
        }
        keys.sort_unstable();
    }

    // Writes the line of flow f.
    fn put_line(&self, writer: &mut Writer, f: u32)
        requires { f < max_flows }
        ensures { Writes (line_text (line_at self.now f)) writer.old writer.new }
    {
        let from = CLOCK_SIZE * (f as usize);
        put_field(writer, 2, f);
        put_field(writer, 5, word_at(self.clocks, from));
        put_field(writer, 5, word_at(self.clocks, from + 1));
        put_field(writer, 1, word_at(self.clocks, from + 2));
        writer.put_right(8, self.load_of(f));
        writer.put(b'\n');
    }

    // Writes the lines of the flows that keys give.
    fn put_lines(&self, writer: &mut Writer, keys: &[u64])
        ensures { Writes (lines_text (map (line_by self.now) keys.now)) writer.old writer.new }
    {
        for key in keys {
            self.put_line(writer, (*key % MAX_FLOWS) as u32);
        }
    }

    // Writes the page, and answers its size.
    fn put_page(&self, text: &mut [u8]) -> usize
        ensures { Wrote 0 (page_text (sorted (lines_of self.now))) text.old result text.new }
    {
        let mut all = [0u64; MAX_FLOWS as usize];
        let keys = &mut all[..self.count as usize];
        self.sort_keys(keys);
        let mut writer = Writer::new(text);
        self.put_lines(&mut writer, keys);
        put_total(&mut writer, self.sum());
        writer.at
    }
}

// The load page of a table of `count` rows, from one worst time a flow, after the check: the count of bytes, or the first refusal, which
// leaves the page as it was.
pub fn page(count: u32, words: &[u32], times: &[u16], page: &mut [u8]) -> Result<u32, Refused>
    ensures answered { parts result ≡ page_answer count words.now times.now (length page.old) }
    ensures stored { page.new ≡ page_after count words.now times.now page.old }
{
    let mut clocks = [0u32; CLOCKS];
    checker::check(count, words, &mut clocks)?;
    let n = count as usize;
    if times.len() != n {
        return Err(Refusal::WrongTimes.at(0));
    }
    if page.len() < LINE_SIZE * (n + 1) {
        return Err(Refusal::ShortPage.at(0));
    }
    let flows = Flows {
        count,
        clocks: &clocks,
        times,
    };
    Ok(flows.put_page(page) as u32)
}
