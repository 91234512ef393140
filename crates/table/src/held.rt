// The reader that holds the packed bytes and a bit place.
ghost use Rattle.std.specs.Prelude.{◌≡◌};
ghost use Rattle.table.specs.Bits.{bits};
ghost use Rattle.table.specs.Places.{taking_parts, take_at_bit};

use super::{Cursor, Reader};

impl<'a> Reader<'a> {
    // A reader at the first bit.
    pub fn new(src: &'a [u8]) -> Reader<'a>
        ensures { (result.src ≡ src.entry) × (result.at ≡ 0) }
    {
        Reader { src, at: 0 }
    }

    // The next width bits, with the place after them.
    pub fn take(self, width: u32) -> Option<(u32, Cursor)>
        ensures { taking_parts result ≡ take_at_bit (bits self.entry.src.now) self.entry.at width }
    {
        Cursor { at: self.at }.take(self.src, width)
    }
}

// The first width bits of s, by a reader.
pub(crate) fn first_field(s: &[u8], width: u32) -> Option<(u32, Cursor)>
    ensures { taking_parts result ≡ take_at_bit (bits s.now) 0 width }
{
    Reader::new(s).take(width)
}
