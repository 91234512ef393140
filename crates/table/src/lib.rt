// A plan's table, in plain form and in packed form.
// A cast by `as` stands where std has no `From`, or a constant may call none; that nothing is lost is proved.
#![tactic(auto)]

ghost use Rattle.std.specs.Prelude.{◌≡◌, get_or, length};
ghost use Rattle.table.specs.Answers.{numbered, parts, success};
ghost use Rattle.table.specs.Plain.{row_words, words_of, plain_answer, draft_answer, put_row, copied};
ghost use Rattle.table.specs.Links.{flow_fields};
ghost use Rattle.table.specs.Packed.{read_answer, words_after, write_answer, bytes_after};

mod rows; // rows.rt: the fields of a row, and its tests
mod bits; // bits.rt: fields taken and put at a bit place
mod held; // held.rt: a reader that holds the packed bytes and a place
mod plain; // plain.rt: the test of a table in plain form
pub mod refusal; // refusal.rt: why a plan comes back
mod unpack; // unpack.rt: reading the packed form
mod pack; // pack.rt: writing the packed form

pub use refusal::{Refusal, Refused};
use rows::Fields;
use std::fmt;

// What a call answers as C gets it, in four numbers: number 0 is success. A row is given in the flow part; parts that are not named are 0.
#[derive(Clone, Copy)]
pub struct Answer {
    pub number: u32,
    pub flow: u32,
    pub tick: u32,
    pub count: u32,
}

impl Answer {
    // Success, with a count.
    pub fn success(count: u32) -> Answer
        ensures { result ≡ success count }
    {
        Answer {
            number: 0,
            flow: 0,
            tick: 0,
            count,
        }
    }

    // A refusal by its number, with the row or flow that it names.
    pub fn refusal(number: u32, flow: u32) -> Answer
        ensures { result ≡ numbered number flow }
    {
        Answer {
            number,
            flow,
            tick: 0,
            count: 0,
        }
    }
}

// The four parts, a blank between them.
impl fmt::Display for Answer {
    ghost use Rattle.std.specs.Prelude.{Some};
    ghost use Rattle.table.specs.Answers.{answer_text};

    ghost output = { λ a. Some (answer_text a) };

    fn fmt<W: fmt::Write>(&self, f: &mut fmt::Formatter<W>) -> fmt::Result {
        write!(
            f,
            "{} {} {} {}",
            self.number, self.flow, self.tick, self.count
        )
    }
}

// A bit place in packed bytes.
#[derive(Clone, Copy)]
pub struct Cursor {
    pub at: usize,
}

// The packed bytes and a bit place in them.
#[derive(Clone, Copy)]
pub struct Reader<'a> {
    pub src: &'a [u8],
    pub at: usize,
}

// The four words of a row. The kind is a number, since the words that are handed in may have any.
#[derive(Clone, Copy)]
pub struct Record {
    pub kind: u32,
    pub one: u32,
    pub two: u32,
    pub three: u32,
}

// Which fields of a kind hold flow numbers. Of a kind, not of a row: so no Option of a flow.
#[derive(Clone, Copy)]
pub struct FlowFields {
    pub one: bool,
    pub two: bool,
    pub three: bool,
}

// How many kinds of rows there are, the kind of an input with no rate written, the first of the views, how many words a row has, and how many
// flows a table has at most.
pub const KINDS: u32 = 19;

pub const UNRATED: u32 = 16;

pub const FIRST_VIEW: u32 = 17;

pub const ROW_SIZE: usize = 4;

pub const MAX_FLOWS: u32 = 64;

// The words of the most flows.
const WORDS: usize = ROW_SIZE * (MAX_FLOWS as usize);

// The bytes of the longest packed table.
pub const LONGEST_TABLE: usize = (Cursor::LAST + 7) / 8;

// The word at i, 0 past the end. A function of its own: docs/CONTRACTS.md names it.
pub fn word_at(words: &[u32], i: usize) -> u32
    ensures { result ≡ get_or words.now i 0 }
{
    words.get(i).copied().unwrap_or(0)
}

// The words of a row, 0 past the end. By place, as C lends them.
pub fn record_at(words: &[u32], row: u32) -> Record
    ensures { words_of result ≡ row_words words.now row }
{
    let i = ROW_SIZE * (row as usize);
    if i + ROW_SIZE <= words.len() {
        return Record {
            kind: words[i],
            one: words[i + 1],
            two: words[i + 2],
            three: words[i + 3],
        };
    }
    Record {
        kind: word_at(words, i),
        one: word_at(words, i + 1),
        two: word_at(words, i + 2),
        three: word_at(words, i + 3),
    }
}

// Puts the words of a row in their place, where there is room for them.
pub fn put_record(words: &mut [u32], row: u32, r: Record)
    ensures { words.new ≡ put_row row (words_of r) words.old }
{
    if words.len() < ROW_SIZE * (row as usize) + ROW_SIZE {
        return;
    }
    unpack::store_row(words, row, r);
}

// The fields of a kind that hold flow numbers: operands, beat and source. A number that is no kind has none.
pub fn flow_fields(kind: u32) -> FlowFields
    ensures { result ≡ flow_fields kind }
{
    if KINDS <= kind {
        return FlowFields {
            one: false,
            two: false,
            three: false,
        };
    }
    let fields = Fields::new();
    FlowFields {
        one: fields.holds_flow(kind, 0),
        two: fields.holds_flow(kind, 1),
        three: fields.holds_flow(kind, 2),
    }
}

// Copies the first n words, where both have as many. A function of its own: docs/CONTRACTS.md names it.
pub fn copy(n: usize, from: &[u32], to: &mut [u32])
    ensures { to.new ≡ copied n from.now to.old }
{
    if from.len() < n {
        return;
    }
    if to.len() < n {
        return;
    }
    to[..n].copy_from_slice(&from[..n]);
}

// The test of a table in plain form: the count of flows, or the first refusal.
pub fn examine(count: u32, words: &[u32]) -> Result<u32, Refused>
    ensures { parts result ≡ plain_answer count words.now }
{
    plain::survey(true, count, words)?;
    Ok(count)
}

// The same of a draft, whose inputs may be unrated. Both names are public; the test is one.
pub fn examine_draft(count: u32, words: &[u32]) -> Result<u32, Refused>
    ensures { parts result ≡ draft_answer count words.now }
{
    plain::survey(false, count, words)?;
    Ok(count)
}

// Reads a packed table into plain form: the count of flows, and four words a flow from the first word on.
pub fn read(packed: &[u8], words: &mut [u32]) -> Result<u32, Refused>
    ensures answered { parts result ≡ read_answer packed.now (length words.old) }
    ensures stored { words.new ≡ words_after packed.now words.old }
{
    let mut rows = [0u32; WORDS];
    let count = unpack::unpack(packed, &mut rows)?;
    let size = ROW_SIZE * (count as usize);
    if words.len() < size {
        return Err(Refusal::NoRoom.at(0));
    }
    copy(size, &rows, words);
    Ok(count)
}

// The four parts of what a call answers, for C.
pub fn parts(answered: Result<u32, Refused>) -> Answer
    ensures { result ≡ parts answered }
{
    match answered {
        Ok(count) => Answer::success(count),
        Err(refused) => Answer {
            tick: refused.tick,
            ..Answer::refusal(refused.why.number(), refused.flow)
        },
    }
}

// Writes a table in plain form as a packed table: the count of bytes, and the bytes from the first on.
pub fn write(count: u32, words: &[u32], packed: &mut [u8]) -> Result<u32, Refused>
    ensures answered { parts result ≡ write_answer count words.now (length packed.old) }
    ensures stored { packed.new ≡ bytes_after count words.now packed.old }
{
    let bytes = plain::survey(false, count, words)?;
    if packed.len() < bytes {
        return Err(Refusal::NoRoom.at(0));
    }
    pack::put_table(count, words, &mut packed[..bytes]);
    Ok(bytes as u32)
}
