// The test of a table in plain form.
ghost use Rattle.std.specs.Prelude.{◌≡◌, ◌+◌, ◌*◌, ◌<◌, ◌≤◌, length};
ghost use Rattle.table.specs.Rows.{max_flows, row_size};
ghost use Rattle.table.specs.Answers.{answer};
ghost use Rattle.table.specs.Plain.{split, rows_from, count_fits, table_by};
ghost use Rattle.table.specs.Private.Codes.{told, Sized};

use super::bits::{FIRST_ROW, byte_count};
use super::rows::{BOUND, Layout, barred_kind};
use super::{MAX_FLOWS, ROW_SIZE, Refusal, Refused, record_at};

// The rows of a table of count flows, from the first on. Whether each input is to be rated is handed in.
fn survey_rows(rated: bool, count: u32, words: &[u32]) -> Result<usize, Refused>
    requires { (count ≤ max_flows) × (length words.now ≡ row_size * count) }
    ensures { (answer (λ rs. count) (rows_from rated count 0 (split count words.now)) ≡ told count result) × Sized (split count words.now) result }
{
    let layout = Layout::new();
    let barred = barred_kind(rated);
    let mut bound = BOUND;
    bound[1] = u64::from(count);
    let mut bits: usize = FIRST_ROW;
    for row in 0..count {
        bound[0] = u64::from(row);
        let r = record_at(words, row);
        if !layout.accepts(barred, r, &bound) {
            return Err(layout.why(rated, r).at(row));
        }
        bits += layout.length_of(r.kind);
    }
    Ok(byte_count(bits))
}

// Whether a table may have count flows.
pub(crate) fn count_fits(count: u32) -> bool
    ensures { result ≡ count_fits count }
{
    1 <= count && count <= MAX_FLOWS
}

// A table in plain form: its bytes in packed form, or why it is refused.
// `rated` is data of the call, no choice of a step: which kind is barred.
pub(crate) fn survey(rated: bool, count: u32, words: &[u32]) -> Result<usize, Refused>
    ensures { (answer (λ rs. count) (table_by rated count words.now) ≡ told count result) × Sized (split count words.now) result }
{
    if !count_fits(count) {
        return Err(Refusal::BadCount.at(0));
    }
    if words.len() != ROW_SIZE * (count as usize) {
        return Err(Refusal::BadCount.at(0));
    }
    survey_rows(rated, count, words)
}
