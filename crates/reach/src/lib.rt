// The flows to which each flow of a plan leads, as sets: bit g of a set is flow g.
// A cast by `as` stands where std has no `From`, or a constant may call none; that nothing is lost is proved.
#![tactic(auto)]

ghost use Rattle.std.specs.Prelude.{◌≡◌, ◌<◌, length};
ghost use Rattle.table.specs.Answers.{parts};
ghost use Rattle.table.specs.Plain.{words_of};
ghost use Rattle.reach.specs.Sets.{has, with_flow};
ghost use Rattle.reach.specs.Reach.{sets_of, reach_answer, sets_after};
ghost use Rattle.reach.specs.Private.Steps.{IsTable, named_set, absorbed, Reached, Swept};

use table::{MAX_FLOWS, Record, Refusal, Refused, record_at};

// Whether a flow is in a set.
#[tactic(auto, unfolding(crate::specs::Sets::has))]
pub fn has(set: u64, flow: u32) -> bool
    ensures { result ≡ has set flow }
{
    if MAX_FLOWS <= flow {
        return false;
    }
    (set >> flow) % 2 == 1
}

// A set, and flow x with it where the test is passed. The test is handed in, since each caller has one.
pub fn with_flow(set: u64, on: bool, x: u32) -> u64
    ensures { result ≡ with_flow set on x }
{
    if on && x < MAX_FLOWS {
        set | (1u64 << x)
    } else {
        set
    }
}

// Flow f, and the flows that its row names.
#[tactic(auto, unfolding(crate::specs::Private::Steps::named_set))]
fn named(f: u32, row: Record) -> u64
    ensures { result ≡ named_set f (words_of row) }
{
    let flows = table::flow_fields(row.kind);
    let own = with_flow(0, true, f);
    let one = with_flow(own, flows.one, row.one);
    let two = with_flow(one, flows.two, row.two);
    with_flow(two, flows.three, row.three)
}

// The set x, and y with it where flow k is in x.
fn absorb(x: u64, y: u64, k: u32) -> u64
    ensures { result ≡ absorbed x y k }
{
    if has(x, k) { x | y } else { x }
}

// For each of n flows the set of itself and the flows that its row names.
fn start(n: u32, words: &[u32], sets: &mut [u64])
    requires table { IsTable n words.now }
    requires size { length sets.old ≡ n }
    ensures { Reached words.now n 0 sets.new }
{
    for f in 0..n {
        sets[f as usize] = named(f, record_at(words, f));
    }
}

// Each set joined with that of flow k, where it has k.
fn sweep(k: u32, sets: &mut [u64])
    requires { k < length sets.old }
    ensures { Swept k sets.old sets.new }
{
    let through = sets[k as usize];
    for set in sets.iter_mut() {
        *set = absorb(*set, through, k);
    }
}

// For each of n flows the set of the flows to which it leads.
fn close(n: u32, words: &[u32], sets: &mut [u64])
    requires table { IsTable n words.now }
    requires size { length sets.old ≡ n }
    ensures { sets.new ≡ sets_of n words.now n }
{
    start(n, words, sets);
    for k in 0..n {
        sweep(k, sets);
    }
}

// For each flow the set of the flows to which it leads, itself among them, through operands, beats and sources: the count of flows, or the first
// refusal, which leaves the sets.
pub fn reach(count: u32, words: &[u32], sets: &mut [u64]) -> Result<u32, Refused>
    ensures answered { parts result ≡ reach_answer count words.now (length sets.old) }
    ensures stored { sets.new ≡ sets_after count words.now sets.old }
{
    table::examine(count, words)?;
    let n = count as usize;
    if sets.len() < n {
        return Err(Refusal::NoRoom.at(0));
    }
    close(count, words, &mut sets[..n]);
    Ok(count)
}
