// Writing the packed form: the rows of a table that is not refused, each as one number.
ghost use Rattle.std.specs.Prelude.{◌≡◌, ◌++◌, ◌+◌, ◌-◌, ◌*◌, ◌<◌, ◌≤◌, ◌^◌, ◌%◌, get_or, length};
ghost use Rattle.table.specs.Rows.{kind_count};
ghost use Rattle.table.specs.Plain.{split, words_of};
ghost use Rattle.table.specs.Bits.{to_bits, byte_count};
ghost use Rattle.table.specs.Packed.{row_bits, rows_bits, count_width};
ghost use Rattle.table.specs.Lengths.{row_length};
ghost use Rattle.table.specs.Private.Laid.{Begun};
ghost use Rattle.table.specs.Private.Codes.{widths, Ready};

use super::bits::COUNT_WIDTH;
use super::rows::Layout;
use super::{Cursor, Record, record_at};

impl Layout {
    // The bits of x that a field has behind high.
    fn behind(&self, high: u64, x: u32, field: usize) -> u64
        requires { (field < 7) × (high < 2 ^ (64 - get_or widths field 0)) }
        ensures { result ≡ high * 2 ^ get_or widths field 0 + x % 2 ^ get_or widths field 0 }
    {
        (high << self.width[field]) | u64::from(x & self.most[field])
    }

    // The number that a packed row of a known kind is.
    fn number_of(&self, r: Record) -> u64
        requires { r.kind < kind_count }
        ensures { (result < 2 ^ row_length r.kind) × (to_bits (row_length r.kind) result ≡ row_bits (words_of r)) }
    {
        let one = self.behind(u64::from(r.kind), r.one, self.fields.at(r.kind, 0));
        let two = self.behind(one, r.two, self.fields.at(r.kind, 1));
        self.behind(two, r.three, self.fields.at(r.kind, 2))
    }
}

// The packed table of rows that are not refused, in as many bytes as it takes.
pub(crate) fn put_table(count: u32, words: &[u32], out: &mut [u8])
    requires { Ready count words.now × (length out.old ≡ byte_count (count_width + length (rows_bits (split count words.now)))) }
    ensures { Begun (length out.old) (to_bits count_width count ++ rows_bits (split count words.now)) out.old out.new }
{
    let layout = Layout::new();
    let mut cursor = Cursor::new().put(out, COUNT_WIDTH as usize, u64::from(count));
    for row in 0..count {
        let r = record_at(words, row);
        cursor = cursor.put(out, layout.length_of(r.kind), layout.number_of(r));
    }
}
