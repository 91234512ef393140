// Which inputs a flow feels, as sets: bit i of a set is row i.
// A cast by `as` stands where std has no `From`, or a constant may call none; that nothing is lost is proved.
#![tactic(auto)]

ghost use Rattle.std.specs.Prelude.{◌≡◌, ◌≤◌, length, get_or};
ghost use Rattle.std.specs.Int.Bits.{bit_and};
ghost use Rattle.table.specs.Answers.{parts};
ghost use Rattle.table.specs.Rows.{max_flows};
ghost use Rattle.table.specs.Plain.{per_flow};
ghost use Rattle.reach.specs.Sets.{set_of};
ghost use Rattle.influence.specs.Felt.{input_at, felt_answer, felt_after};

use checker::CLOCKS;
use reach::with_flow;
use table::{Refused, record_at};

// The kind of an input.
const INPUT: u32 = 0;

// Those of the first n rows that are inputs, as a set: by the number of their kind, as the words have it.
fn inputs(n: u32, words: &[u32]) -> u64
    requires { n ≤ max_flows }
    ensures { result ≡ set_of (input_at words.now) n }
{
    let mut set: u64 = 0;
    for i in 0..n {
        let row = record_at(words, i);
        set = with_flow(set, row.kind == INPUT, i);
    }
    set
}

// Of each set what is in another set too.
fn keep(kept: u64, sets: &mut [u64])
    ensures { sets.new ≡ per_flow (λ f. bit_and kept (get_or sets.old f 0)) (length sets.old) }
{
    for set in sets.iter_mut() {
        *set &= kept;
    }
}

// For each flow the set of the input rows from which it can be reached through operands, beats, sources and conditions: the count of flows, or the
// first refusal, which leaves the sets. Each condition of a clock is on a flow that the rows lead to, so the closure of the rows serves.
pub fn felt(count: u32, words: &[u32], sets: &mut [u64]) -> Result<u32, Refused>
    ensures answered { parts result ≡ felt_answer count words.now (length sets.old) }
    ensures stored { sets.new ≡ felt_after count words.now sets.old }
{
    let mut clocks = [0u32; CLOCKS];
    checker::check(count, words, &mut clocks)?;
    let reached = reach::reach(count, words, sets)?;
    keep(inputs(count, words), &mut sets[..count as usize]);
    Ok(reached)
}
