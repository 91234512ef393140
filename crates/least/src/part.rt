// The rows and the flows of a part.
ghost use Rattle.std.specs.Prelude.{◌≡◌, ◌*◌, ◌≤◌, length};
ghost use Rattle.table.specs.Answers.{over};
ghost use Rattle.table.specs.Rows.{max_flows, row_size};
ghost use Rattle.table.specs.Plain.{words_of, joined};
ghost use Rattle.reach.specs.Sets.{has};
ghost use Rattle.least.specs.Parts.{below, renumbered_row, part_rows, part_flows};
ghost use Rattle.least.specs.Private.Steps.{moved};

use reach::has;
use table::{MAX_FLOWS, Record, put_record, record_at};

// How many flows of the set are below f.
#[tactic(auto, using(crate::proofs::Ranks::rank_all, crate::proofs::Ranks::rank_mask))]
pub(crate) fn rank(set: u64, f: u32) -> u32
    ensures { result ≡ below (has set) f }
{
    if MAX_FLOWS <= f {
        return set.count_ones();
    }
    (set & ((1u64 << f) - 1)).count_ones()
}

// A field with its number in the set, where it is a flow: a field that is none is kept, so it is no Option.
fn moved(set: u64, on: bool, x: u32) -> u32
    ensures { result ≡ moved set on x }
{
    if on { rank(set, x) } else { x }
}

// A row with its flows renumbered.
#[tactic(auto, unfolding(crate::specs::Parts::renumbered_row))]
fn renumbered(set: u64, row: Record) -> Record
    ensures { words_of result ≡ renumbered_row (has set) (words_of row) }
{
    let flows = table::flow_fields(row.kind);
    Record {
        kind: row.kind,
        one: moved(set, flows.one, row.one),
        two: moved(set, flows.two, row.two),
        three: moved(set, flows.three, row.three),
    }
}

// The flows of a part, from the first word on; their count, which goes on only for a flow of the set.
#[tactic(auto, using(crate::proofs::Numbers::below_le, crate::proofs::Numbers::below_lt))]
pub(crate) fn store_flows(n: u32, set: u64, flows: &mut [u32]) -> u32
    requires few { n ≤ max_flows }
    requires room { below (has set) n ≤ length flows.old }
    ensures value { result ≡ below (has set) n }
    ensures flows_after { flows.new ≡ over (part_flows n (has set)) flows.old }
{
    let mut at = 0;
    for f in 0..n {
        if has(set, f) {
            flows[at as usize] = f;
            at += 1;
        }
    }
    at
}

// The rows of a part, from the first word on; their count. A loop of its own beside that of the flows: one walk for both would ask of every call
// that there is room.
#[tactic(auto, using(crate::proofs::Numbers::below_le))]
pub(crate) fn store_rows(n: u32, words: &[u32], set: u64, rows: &mut [u32]) -> u32
    requires few { n ≤ max_flows }
    requires room { row_size * below (has set) n ≤ length rows.old }
    ensures value { result ≡ below (has set) n }
    ensures rows_after { rows.new ≡ over (joined (part_rows n words.now (has set))) rows.old }
{
    let mut at = 0;
    for f in 0..n {
        if has(set, f) {
            let row = record_at(words, f);
            put_record(rows, at, renumbered(set, row));
            at += 1;
        }
    }
    at
}
