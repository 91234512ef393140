// A packed table, read and checked: `table::read` and `checker::check` by their contracts alone.
// A cast by `as` stands where std has no `From`, or a constant may call none; that nothing is lost is proved.
#![tactic(auto)]

ghost use Rattle.std.specs.Prelude.{◌≡◌, length};
ghost use Rattle.table.specs.Answers.{parts};
ghost use Rattle.packed_check.specs.Checked.{packed_answer, packed_after};

use table::{ROW_SIZE, Refused};

const MAX_FLOWS: usize = table::MAX_FLOWS as usize;

// Reads a packed table, stops where that fails, and checks the table: what the check answers and leaves, or reading's refusal, which leaves the
// clocks.
pub fn check_packed(packed: &[u8], clocks: &mut [u32]) -> Result<u32, Refused>
    ensures answered { parts result ≡ packed_answer packed.now (length clocks.old) }
    ensures stored { clocks.new ≡ packed_after packed.now clocks.old }
{
    let mut words = [0u32; ROW_SIZE * MAX_FLOWS];
    let reading = table::read(packed, &mut words);
    let Ok(count) = reading else {
        return reading;
    };
    let size = ROW_SIZE * (count as usize);
    checker::check(count, &words[..size], clocks)
}
