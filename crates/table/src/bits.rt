// Bits of packed bytes, most significant first: a field is taken and put at a bit place by shifts and masks.
ghost use Rattle.std.specs.Prelude.{◌≡◌, ◌+◌, ◌*◌, ◌<◌, ◌≤◌, ◌^◌, ◌%◌, length, take, drop};
ghost use Rattle.table.specs.Bits.{bits, to_bits, from_bits, byte_count};
ghost use Rattle.table.specs.Places.{taking_parts, take_at_bit, last_place, longest_record};
ghost use Rattle.table.specs.Private.Laid.{window, whole, nine, nine_byte, Put};

use super::Cursor;

// The bits of the count of flows and of a row's kind, and the place of the first row.
pub(crate) const COUNT_WIDTH: u32 = 8;

pub(crate) const KIND_WIDTH: u32 = 5;

pub(crate) const FIRST_ROW: usize = 8;

// Eight bits behind high.
fn join(high: u64, low: u64) -> u64
    requires { (high < 2 ^ 56) × (low < 2 ^ 8) }
    ensures { result ≡ high * 256 + low }
{
    (high << 8) | low
}

// Up to eight bytes as one number.
fn joined(bytes: &[u8]) -> u64
    requires { length bytes.now ≤ 8 }
    ensures { result ≡ from_bits (bits bytes.now) }
{
    let mut x: u64 = 0;
    for byte in bytes {
        x = join(x, u64::from(*byte));
    }
    x
}

// The last eight of the first n bytes as one number; all of them where there are fewer.
fn window_to(s: &[u8], n: usize) -> u64
    requires { n ≤ length s.now }
    ensures { result ≡ from_bits (bits (window s.now n)) }
{
    if 8 <= n {
        return joined(&s[n - 8..n]);
    }
    joined(&s[..n])
}

// The w low bits of x.
fn low_bits(x: u64, w: usize) -> u64
    requires { w ≤ 56 }
    ensures { result ≡ x % 2 ^ w }
{
    x & ((1u64 << w) - 1)
}

// The w bits at a place as a number.
pub(crate) fn number_at(s: &[u8], at: usize, w: usize) -> u64
    requires { (at ≤ last_place) × (w ≤ 56) × (at + w ≤ 8 * length s.now) }
    ensures { result ≡ from_bits (take w (drop at (bits s.now))) }
{
    let end = byte_count(at + w);
    low_bits(window_to(s, end) >> (8 * end - (at + w)), w)
}

// How many bytes n bits take.
pub(crate) fn byte_count(n: usize) -> usize
    requires { n < 65536 }
    ensures { result ≡ byte_count n }
{
    (n + 7) / 8
}

// A number of bits, filled up to whole bytes.
pub(crate) fn up(n: usize) -> usize
    requires { n < 65536 }
    ensures { result ≡ whole n }
{
    8 * byte_count(n)
}

// Byte k of nine that stand as one number: x has the first eight, y is the last.
fn byte_of(x: u64, y: u8, k: usize) -> u8
    requires { k < 9 }
    ensures { result ≡ nine_byte (x * 256 + y) k }
{
    if k == 8 {
        return y;
    }
    ((x >> (56 - 8 * k)) % 256) as u8
}

// Stores as many of the nine bytes as there is room for.
fn store(out: &mut [u8], x: u64, y: u8)
    requires { length out.old ≤ 9 }
    ensures { out.new ≡ take (length out.old) (nine (x * 256 + y)) }
{
    for (k, byte) in out.iter_mut().enumerate() {
        *byte = byte_of(x, y, k);
    }
}

impl Cursor {
    // The bits of the longest record.
    pub const LONGEST: usize = 61;

    // The place after the longest table: its count, and 64 records.
    pub const LAST: usize = 8 + 64 * Cursor::LONGEST;

    // The place of the first bit.
    pub fn new() -> Self
        ensures { result.at ≡ 0 }
    {
        Cursor { at: 0 }
    }

    // The next width bits of s as a number, with the place after them.
    pub fn take(self, s: &[u8], width: u32) -> Option<(u32, Cursor)>
        ensures { taking_parts result ≡ take_at_bit (bits s.now) self.at width }
    {
        let at = self.at;
        let w = width as usize;
        if Cursor::LAST < at {
            return None;
        }
        if 32 < w {
            return None;
        }
        if s.len() < byte_count(at + w) {
            return None;
        }
        Some((number_at(s, at, w) as u32, Cursor { at: at + w }))
    }

    // Puts a number of w bits, and hands back the place after it.
    pub(crate) fn put(self, out: &mut [u8], w: usize, v: u64) -> Cursor
        requires { (self.at ≤ last_place) × (1 ≤ w) × (w ≤ longest_record) × (v < 2 ^ w) × (self.at + w ≤ 8 * length out.old) }
        ensures { (result.at ≡ self.at + w) × Put (length out.old) self.at (to_bits w v) out.old out.new }
    {
        // The bits before the place and the number as nine bytes: eight in x, the last in y.
        let at = self.at;
        let i = at / 8;
        let before = u64::from(out[i]) >> (8 - at % 8);
        let field = v << (64 - w);
        let x = ((before << 1) << (63 - at % 8)) | (field >> (at % 8));
        let y = ((field << (8 - at % 8)) % 256) as u8;
        if i + 9 <= out.len() {
            store(&mut out[i..i + 9], x, y);
        } else {
            store(&mut out[i..byte_count(at + w)], x, y);
        }
        Cursor { at: at + w }
    }
}
