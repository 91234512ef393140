// The listing of a packed table, as text.
// A cast by `as` stands where std has no `From`, or a constant may call none; that nothing is lost is proved.
#![tactic(auto)]

ghost use Rattle.std.specs.Prelude.{◌≡◌, ◌*◌, ◌%◌, ◌≤◌, length, eqb};
ghost use Rattle.text.specs.Text.{Wrote};
ghost use Rattle.text.specs.Writers.{Writes};
ghost use Rattle.table.specs.Answers.{number, parts};
ghost use Rattle.checker.specs.Answers.{clock_size};
ghost use Rattle.lister.specs.Listing.{field, sign, view_text, refusal_text, longest, listing_answer, text_after};
ghost use Rattle.lister.specs.Private.Words.{word_text, words_text, counted_text, clock_text, clocks_text, table_text};

use checker::{CLOCK_SIZE, CLOCKS};
use table::{Refusal, Refused, word_at};
use text::Writer;

const MAX_FLOWS: usize = table::MAX_FLOWS as usize;

const MAX_CONDITIONS: usize = checker::MAX_CONDITIONS as usize;

// Room for every listing: a first line of six bytes, and a line for each flow, with period, phase and conditions, of which one can be viewed.
const LONGEST_TIME: usize = 5;

const LONGEST_VIEW: usize = 5;

const LONGEST_LINE: usize = 6 + 2 * LONGEST_TIME + 4 * MAX_CONDITIONS + LONGEST_VIEW;

pub const LONGEST: usize = 6 + LONGEST_LINE * MAX_FLOWS;

// Writes a number and a space.
fn put_field(writer: &mut Writer, n: u32)
    ensures { Writes (field n) writer.old writer.new }
{
    writer.put_decimal(n);
    writer.put(b' ');
}

// The sign of a condition's word.
fn sign(word: u32) -> u8
    ensures { result ≡ sign (eqb (word % 2) 1) }
{
    if word % 2 == 1 { b'+' } else { b'-' }
}

// Writes a view period, and nothing where it is 0.
fn put_view(writer: &mut Writer, view: u32)
    ensures { Writes (view_text view) writer.old writer.new }
{
    if view != 0 {
        writer.put(b'@');
        writer.put_decimal(view);
    }
}

// Writes a condition by its word and its view period.
fn put_condition(writer: &mut Writer, word: u32, view: u32)
    ensures { Writes (word_text word view) writer.old writer.new }
{
    writer.put(b'c');
    writer.put_decimal(word / 2);
    writer.put(sign(word));
    put_view(writer, view);
}

// Writes n conditions by their words, and the view periods behind the words of the most conditions.
fn put_words(writer: &mut Writer, words: &[u32], n: u32)
    ensures { Writes (words_text n words.now) writer.old writer.new }
{
    for i in 0..n {
        let place = i as usize;
        let word = word_at(words, place);
        let view = word_at(words, place + MAX_CONDITIONS);
        put_condition(writer, word, view);
    }
}

// Writes n conditions, or a lone minus where there are none.
#[tactic(auto, unfolding(crate::specs::Private::Words::counted_text))]
fn put_conditions(writer: &mut Writer, words: &[u32], n: u32)
    ensures { Writes (counted_text n words.now) writer.old writer.new }
{
    if n == 0 {
        writer.put(b'-');
    } else {
        put_words(writer, words, n);
    }
}

// Writes the line of flow f by the words of its clock, read by their place, as C reads them.
fn put_line(writer: &mut Writer, f: u32, clock: &[u32])
    requires { 3 ≤ length clock.now }
    ensures { Writes (clock_text f clock.now) writer.old writer.new }
{
    let period = word_at(clock, 0);
    let phase = word_at(clock, 1);
    let n = word_at(clock, 2);
    put_field(writer, f);
    put_field(writer, period);
    put_field(writer, phase);
    put_conditions(writer, &clock[3..], n);
    writer.put(b'\n');
}

// Writes a line for each of n flows.
fn put_lines(writer: &mut Writer, words: &[u32], n: u32)
    requires { clock_size * n ≤ length words.now }
    ensures { Writes (clocks_text n 0 words.now) writer.old writer.new }
{
    for f in 0..n {
        put_line(writer, f, &words[CLOCK_SIZE * (f as usize)..]);
    }
}

// Writes the listing of a table that was accepted, and answers its size.
fn put_table(text: &mut [u8], words: &[u32], n: u32) -> usize
    requires { clock_size * n ≤ length words.now }
    ensures { Wrote 0 (table_text n words.now) text.old result text.new }
{
    let mut writer = Writer::new(text);
    writer.put_bytes(b"ok ");
    writer.put_decimal(n);
    writer.put(b'\n');
    put_lines(&mut writer, words, n);
    writer.at
}

// Writes the one line of a refusal, and answers its size.
fn put_refusal(text: &mut [u8], refused: Refused) -> usize
    ensures wrote { Wrote 0 (refusal_text (number refused.why) refused.flow) text.old result text.new }
    ensures len_bound { length (refusal_text (number refused.why) refused.flow) ≤ longest }
{
    let mut writer = Writer::new(text);
    writer.put_bytes(b"no ");
    put_field(&mut writer, refused.why.number());
    writer.put_decimal(refused.flow);
    writer.put(b'\n');
    writer.at
}

// The listing of a packed table, its clocks or the one line of a refusal by reading or by the check: how many bytes it has. A text that is too
// short for the longest is left as it was.
pub fn listing(packed: &[u8], text: &mut [u8]) -> Result<u32, Refused>
    ensures answered { parts result ≡ listing_answer packed.now (length text.old) }
    ensures stored { text.new ≡ text_after packed.now text.old }
{
    if text.len() < LONGEST {
        return Err(Refusal::NoRoom.at(0));
    }
    let mut clocks = [0u32; CLOCKS];
    match packed_check::check_packed(packed, &mut clocks) {
        Ok(count) => Ok(put_table(text, &clocks, count) as u32),
        Err(refused) => Ok(put_refusal(text, refused) as u32),
    }
}
