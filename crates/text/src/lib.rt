// Bytes and decimal numbers written into a text, as far as it has room.
// A cast by `as` stands where std has no `From`, or a constant may call none; that nothing is lost is proved.
#![tactic(auto)]

ghost use Rattle.std.specs.Prelude.{◌≡◌, [], ◌∷◌, length};
ghost use Rattle.text.specs.Text.{decimal, right};
ghost use Rattle.text.specs.Writers.{Writes};

// A text, and the place of the next byte.
#[derive(Drop)]
pub struct Writer<'a> {
    pub text: &'a mut [u8],
    pub at: usize,
}

// How many digits a number has.
fn digits(n: u32) -> usize
    ensures { result ≡ length (decimal n) }
{
    n.max(1).ilog10() as usize + 1
}

impl<'a> Writer<'a> {
    // A writer at the first place of a text.
    pub fn new(text: &'a mut [u8]) -> Writer<'a>
        ensures same_text { result.text.ghost_name ≡ text.entry.ghost_name }
        ensures unchanged { result.text.now ≡ text.old }
        ensures first { result.at ≡ 0 }
    {
        Writer { text, at: 0 }
    }

    // Writes a byte.
    pub fn put(&mut self, byte: u8)
        ensures { Writes (byte ∷ []) self.old self.new }
    {
        if self.at < self.text.len() {
            self.text[self.at] = byte;
            self.at += 1;
        }
    }

    // Writes bytes.
    pub fn put_bytes(&mut self, bytes: &[u8])
        ensures { Writes bytes.now self.old self.new }
    {
        for byte in bytes {
            self.put(*byte);
        }
    }

    // Writes a number in decimal.
    pub fn put_decimal(&mut self, n: u32)
        ensures { Writes (decimal n) self.old self.new }
    {
        if n < 10 {
            self.put(b'0' + (n as u8));
            return;
        }
        self.put_decimal(n / 10);
        self.put(b'0' + ((n % 10) as u8));
    }

    // Writes a number in decimal, right-aligned in a width.
    pub fn put_right(&mut self, width: usize, n: u32)
        ensures { Writes (right width n) self.old self.new }
    {
        let blanks = width.saturating_sub(digits(n));
        'blanks: for _ in 0..blanks {
            self.put(b' ');
        }
        self.put_decimal(n);
    }
}
