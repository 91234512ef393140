// Reading the packed form: one pass over the rows, which judges and stores them.
ghost use Rattle.std.specs.Prelude.{◌≡◌, ◌++◌, ◌+◌, ◌*◌, ◌/◌, ◌<◌, ◌≤◌, ◌^◌, ◌%◌, get_or, length, take, drop};
ghost use Rattle.table.specs.Plain.{words_of, plain_row};
ghost use Rattle.table.specs.Bits.{bits};
ghost use Rattle.table.specs.Rows.{kind_count, max_flows, row_size};
ghost use Rattle.table.specs.Packed.{filling, unpacked, count_width};
ghost use Rattle.table.specs.Places.{last_place, longest_record};
ghost use Rattle.table.specs.Private.Codes.{widths, fields_in};
ghost use Rattle.table.specs.Private.Steps.{Stepped, Scanned, Unpacked};

use super::bits::{COUNT_WIDTH, FIRST_ROW, KIND_WIDTH, byte_count, number_at, up};
use super::held::first_field;
use super::plain::count_fits;
use super::rows::{BOUND, Layout};
use super::{Cursor, KINDS, ROW_SIZE, Record, Refusal, Refused};

impl Layout {
    // The field of a number whose shift low bits stand behind it.
    fn part(&self, x: u64, shift: u32, field: usize) -> u32
        requires { (shift < 64) × (field < 7) }
        ensures { result ≡ x / 2 ^ shift % 2 ^ get_or widths field 0 }
    {
        ((x >> shift) & u64::from(self.most[field])) as u32
    }

    // The words of a row of a known kind from the number that its fields are in packed form.
    fn record_of(&self, kind: u32, x: u64) -> Record
        requires { kind < kind_count }
        ensures { words_of result ≡ fields_in kind x }
    {
        let b = self.fields.at(kind, 1);
        let c = self.fields.at(kind, 2);
        let two = self.width[c];
        let one = two + self.width[b];
        Record {
            kind,
            one: self.part(x, one, self.fields.at(kind, 0)),
            two: self.part(x, two, b),
            three: self.part(x, 0, c),
        }
    }
}

impl Cursor {
    // The words of a row at the cursor, with the place after it: its kind, which is to be known, and its fields, which are to be there.
    fn row(self, s: &[u8], row: u32, layout: &Layout) -> Result<(Record, Cursor), Refused>
        requires { (self.at + longest_record ≤ last_place) × (self.at ≤ length (bits s.now)) }
        ensures { Stepped (bits s.now) self.at row result }
    {
        let Some((kind, first)) = self.take(s, KIND_WIDTH) else {
            return Err(Refusal::CutShort.at(row));
        };
        if KINDS <= kind {
            return Err(Refusal::UnknownKind.at(row));
        }
        let end = self.at + layout.length_of(kind);
        if s.len() < byte_count(end) {
            return Err(Refusal::CutShort.at(row));
        }
        let x = number_at(s, first.at, end - first.at);
        Ok((layout.record_of(kind, x), Cursor { at: end }))
    }
}

// The four words of a row at its place.
pub(crate) fn store_row(words: &mut [u32], row: u32, r: Record)
    requires { row_size * row + row_size ≤ length words.old }
    ensures { words.new ≡ take (row_size * row) words.old ++ (plain_row (words_of r) ++ drop (row_size * row + row_size) words.old) }
{
    let i = ROW_SIZE * (row as usize);
    words[i..i + ROW_SIZE].copy_from_slice(&[r.kind, r.one, r.two, r.three]);
}

// The rows of a table of count flows, their words stored: the place after them, or the first refusal with its row.
fn scan_rows(s: &[u8], count: u32, words: &mut [u32]) -> Result<Cursor, Refused>
    requires { (count ≤ max_flows) × (count_width ≤ length (bits s.now)) × (row_size * count ≤ length words.old) }
    ensures { Scanned (bits s.now) count words.new result }
{
    let layout = Layout::new();
    let mut bound = BOUND;
    bound[1] = u64::from(count);
    let mut cursor = Cursor { at: FIRST_ROW };
    for row in 0..count {
        bound[0] = u64::from(row);
        let (r, next) = cursor.row(s, row, &layout)?;
        if !layout.accepts(KINDS, r, &bound) {
            return Err(layout.why(false, r).at(row));
        }
        store_row(words, row, r);
        cursor = next;
    }
    Ok(cursor)
}

// Whether zero bits up to a whole byte, and nothing else, follow the place at.
fn ends(s: &[u8], at: usize) -> bool
    requires { (at ≤ last_place) × (at ≤ length (bits s.now)) }
    ensures { result ≡ filling (drop at (bits s.now)) }
{
    if byte_count(at) < s.len() {
        return false;
    }
    let cursor = Cursor { at };
    let Some((fill, _)) = cursor.take(s, (up(at) - at) as u32) else {
        return false;
    };
    fill == 0
}

// The count, the rows and the end, whatever room there is: what reading comes to, with the words of the rows stored.
pub(crate) fn unpack(s: &[u8], words: &mut [u32]) -> Result<u32, Refused>
    requires { row_size * max_flows ≤ length words.old }
    ensures { Unpacked (unpacked s.now) words.new result }
{
    let (count, _) = first_field(s, COUNT_WIDTH).ok_or(Refusal::CutShort)?;
    if !count_fits(count) {
        return Err(Refusal::BadCount.at(0));
    }
    let end = scan_rows(s, count, words)?;
    if !ends(s, end.at) {
        return Err(Refusal::BadFilling.at(0));
    }
    Ok(count)
}
