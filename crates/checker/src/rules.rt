// The rules of the kinds, over clocks kept.
ghost use Rattle.std.specs.Prelude.{◌≡◌, ◌*◌, eqb, Ok};
ghost use Rattle.table.specs.declared.refusal.Refusal.TheVariants.{NotPlain};
ghost use Rattle.checker.specs.Rules.{multiple};
ghost use Rattle.checker.specs.Private.Kept.{every, same, guard, limited, under, condition, faster, slower, later, head, tail, sampled, extends, merged, viewed};

use super::{Clock, MAX_CONDITIONS, MAX_DERIVED, VIEW_UNIT};
use table::{MAX_FLOWS, Refusal};

// View periods are below this.
const VIEWS: u32 = 4096;

// The whole product of two numbers.
fn product(a: u32, b: u32) -> u64
    ensures { result ≡ a * b }
{
    u64::from(a) * u64::from(b)
}

// A clock without conditions.
pub fn every(period: u32, phase: u32) -> Clock
    ensures { result ≡ every period phase }
{
    Clock {
        period,
        phase,
        count: 0,
        conditions: [0; MAX_CONDITIONS as usize],
    }
}

// Whether two clocks are equal. Conditions are looked at only where there are any: the derived equality looks at them always, and a check of sums
// takes a tenth longer with it.
#[tactic(auto, unfolding(crate::specs::Private::Kept::same))]
pub fn same(a: &Clock, b: &Clock) -> bool
    ensures { result ≡ same a.now b.now }
{
    a.period == b.period
        && a.phase == b.phase
        && a.count == b.count
        && (a.count == 0 || a.conditions == b.conditions)
}

// A clock without conditions, where it is within the limits.
#[tactic(auto, unfolding(crate::specs::Private::Kept::limited))]
fn limited(period: u64, phase: u64) -> Result<Clock, Refusal>
    ensures { result ≡ limited period phase }
{
    if MAX_DERIVED < period || MAX_DERIVED < phase {
        return Err(Refusal::BeyondLimits);
    }
    Ok(every(period as u32, phase as u32))
}

// Refuses a clock with conditions.
fn plain(a: &Clock) -> Result<(), Refusal>
    ensures { result ≡ guard (eqb a.now.count 0) NotPlain (Ok tt) }
{
    if a.count != 0 {
        return Err(Refusal::NotPlain);
    }
    Ok(())
}

// Kind 8: k copies of a, g ticks apart.
pub fn faster(a: &Clock, k: u32, g: u32) -> Result<Clock, Refusal>
    ensures { result ≡ faster a.now k g }
{
    plain(a)?;
    if u64::from(a.period) != product(k, g) {
        return Err(Refusal::ClocksDiffer);
    }
    Ok(every(g, a.phase))
}

// Kind 9: every k-th presence of a.
pub fn slower(a: &Clock, k: u32) -> Result<Clock, Refusal>
    ensures { result ≡ slower a.now k }
{
    plain(a)?;
    limited(product(k, a.period), u64::from(a.phase))
}

// Kind 10: a, d ticks later.
pub fn later(a: &Clock, d: u32) -> Result<Clock, Refusal>
    ensures { result ≡ later a.now d }
{
    plain(a)?;
    limited(u64::from(a.period), u64::from(a.phase) + u64::from(d))
}

// Kind 11: a value at tick s, and then a.
pub fn head(a: &Clock, s: u32) -> Result<Clock, Refusal>
    ensures { result ≡ head a.now s }
{
    plain(a)?;
    if u64::from(a.phase) != u64::from(s) + u64::from(a.period) {
        return Err(Refusal::ClocksDiffer);
    }
    Ok(every(a.period, s))
}

// Kind 12: a without its first presence.
pub fn tail(a: &Clock) -> Result<Clock, Refusal>
    ensures { result ≡ tail a.now }
{
    plain(a)?;
    limited(
        u64::from(a.period),
        u64::from(a.phase) + u64::from(a.period),
    )
}

// A condition's word. Flow and view period are below the divisors: the remainders are the numbers themselves. The truth is data, no choice of a step.
pub fn condition(flow: u32, truth: bool, view: u32) -> u32
    ensures { result ≡ condition flow truth view }
{
    2 * (flow % MAX_FLOWS) + u32::from(truth) + VIEW_UNIT * (view % VIEWS)
}

// A clock with one more, last, condition. By match: by index a check has 8 % more instructions.
#[tactic(auto, unfolding(crate::specs::Private::Kept::under))]
fn under(k: &Clock, word: u32) -> Result<Clock, Refusal>
    ensures { result ≡ under k.now word }
{
    let n = k.count;
    if MAX_CONDITIONS <= n {
        return Err(Refusal::BeyondLimits);
    }
    let [a, b, c, d] = k.conditions;
    let conditions = match n {
        0 => [word, b, c, d],
        1 => [a, word, c, d],
        2 => [a, b, word, d],
        _ => [a, b, c, word],
    };
    Ok(Clock {
        count: n + 1,
        conditions,
        ..*k
    })
}

// Kinds 13 and 14: a where the condition holds of c.
pub fn sampled(a: &Clock, c: &Clock, word: u32) -> Result<Clock, Refusal>
    ensures { result ≡ sampled a.now c.now word }
{
    if !same(a, c) {
        return Err(Refusal::ClocksDiffer);
    }
    under(a, word)
}

// Whether a has c's clock plus the condition.
fn extends(a: &Clock, c: &Clock, word: u32) -> bool
    ensures { result ≡ extends a.now c.now word }
{
    under(c, word).is_ok_and(|k| same(a, &k))
}

// Kind 15: a where c is true and b where it is false; c's flow is given.
pub fn merged(flow: u32, c: &Clock, a: &Clock, b: &Clock) -> Result<Clock, Refusal>
    ensures { result ≡ merged flow c.now a.now b.now }
{
    if !extends(a, c, condition(flow, true, 0)) || !extends(b, c, condition(flow, false, 0)) {
        return Err(Refusal::ClocksDiffer);
    }
    Ok(*c)
}

// Whether w is a multiple of n; of 0 only 0 is.
fn multiple(n: u32, w: u32) -> bool
    ensures { result ≡ multiple n w }
{
    if n == 0 { w == 0 } else { w % n == 0 }
}

// Kinds 17 and 18: a where the condition holds of c, which is looked at once a view period w.
pub fn viewed(a: &Clock, c: &Clock, w: u32, word: u32) -> Result<Clock, Refusal>
    ensures { result ≡ viewed a.now c.now w word }
{
    plain(a)?;
    plain(c)?;
    if !multiple(a.period, w) || !multiple(c.period, w) || a.phase < c.phase {
        return Err(Refusal::BadView);
    }
    under(a, word)
}
