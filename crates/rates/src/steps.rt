// How a rate spreads along a row.
ghost use Rattle.std.specs.Prelude.{◌≡◌, ◌<◌};
ghost use Rattle.table.specs.Rows.{kind_count};
ghost use Rattle.table.specs.Plain.{words_of};
ghost use Rattle.rates.specs.Fillings.{filled_row};
ghost use Rattle.rates.specs.Private.Spread.{given, rise, fall, row_made, rate_of, begun};

use checker::MAX_DERIVED;
use table::{Record, UNRATED};

// The period and phase of a flow.
#[derive(Clone, Copy)]
pub(crate) struct Rate {
    pub(crate) period: u32,
    pub(crate) phase: u32,
}

// The rate that no flow has.
pub(crate) const NO_RATE: Rate = Rate {
    period: 0,
    phase: 0,
};

// A period and a phase where the test (data, no choice of a step) is passed and an accepted clock may have them; else the rate that no flow has,
// which counts as known: 39 is for flows that are joined to no rate.
fn given(test: bool, period: u64, phase: u64) -> Rate
    ensures { result ≡ given test period phase }
{
    if test && 1 <= period && period <= MAX_DERIVED && phase <= MAX_DERIVED {
        return Rate {
            period: period as u32,
            phase: phase as u32,
        };
    }
    NO_RATE
}

// From the rate of a flow with which a row joins its result to that of the result. A flow gets its rate once, so this stands out of the loop of a
// pass. The kinds are numbers, as in the words of a row.
#[tactic(auto, unfolding(table::specs::Rows::kinds))]
#[inline(never)]
pub(crate) fn rise(r: Record, rate: Rate) -> Rate
    requires { r.kind < kind_count }
    ensures { result ≡ rise (row_made (words_of r)) rate }
{
    let n = u64::from(rate.period);
    let p = u64::from(rate.phase);
    let two = u64::from(r.two);
    let three = u64::from(r.three);
    match r.kind {
        8 => given(n == two * three, three, p),
        9 => given(true, two * n, p),
        10 => given(true, n, p + two),
        11 => given(p == three + n, n, three),
        12 => given(true, n, p + n),
        _ => rate,
    }
}

// And back.
#[tactic(auto, unfolding(table::specs::Rows::kinds))]
#[inline(never)]
pub(crate) fn fall(r: Record, rate: Rate) -> Rate
    requires { r.kind < kind_count }
    ensures { result ≡ fall (row_made (words_of r)) rate }
{
    let n = u64::from(rate.period);
    let p = u64::from(rate.phase);
    let two = u64::from(r.two);
    let three = u64::from(r.three);
    match r.kind {
        8 => given(n == three, two * three, p),
        9 => {
            let part = n.checked_div(two).unwrap_or(0);
            given(two * part == n, part, p)
        }
        10 => given(two <= p, n, p.saturating_sub(two)),
        11 => given(p == three, n, three + n),
        12 => given(n <= p, n, p.saturating_sub(n)),
        _ => rate,
    }
}

// The rate of a rated row. Over the number itself: the words lent may hold any.
pub(crate) fn begin(r: Record) -> Option<Rate>
    ensures { result ≡ begun (words_of r) }
{
    match r.kind {
        0 => Some(given(true, u64::from(r.one), u64::from(r.two))),
        1 => Some(given(true, u64::from(r.two), u64::from(r.three))),
        _ => None,
    }
}

// A row with a rate filled in, where it is unrated: by the number of its kind, as the words have it.
pub(crate) fn fill_row(r: Record, rate: Rate) -> Record
    ensures { words_of result ≡ filled_row (rate_of rate) (words_of r) }
{
    if r.kind != UNRATED {
        return r;
    }
    Record {
        kind: 0,
        one: rate.period,
        two: rate.phase,
        three: 0,
    }
}
