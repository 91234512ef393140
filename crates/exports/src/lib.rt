// The calls for C and Rust. Each returns the answer's number, 0 for success, and gives flow, tick and count out through pointers. A
// slice passes as a pointer and a length.
#![tactic(auto)]

ghost use Rattle.std.specs.Prelude.{◌≡◌, length};
ghost use Rattle.table.specs.Answers.{parts};
ghost use Rattle.table.specs.Packed.{read_answer, words_after, write_answer, bytes_after};
ghost use Rattle.checker.specs.Answers.{check_answer, clocks_after};
ghost use Rattle.semantics.specs.Answers.{run_answer, marks_after, values_after};
ghost use Rattle.runner.specs.Long.{long_rows, long_answer, LongLeft};
ghost use Rattle.archive.specs.Answers.{size_answer, store_answer, stored_after, restoring, cells_answer, marks_back, values_back};
ghost use Rattle.lister.specs.Listing.{listing_answer, text_after};
ghost use Rattle.loads.specs.Loads.{page_answer, page_after};
ghost use Rattle.least.specs.Answers.{least_answer, part_after, flows_answer, flows_after};
ghost use Rattle.rates.specs.Fillings.{Filled};
ghost use Rattle.influence.specs.Felt.{felt_answer, felt_after};
ghost use Rattle.exports.specs.Parts.{Given, answer_of};

use table::Refused;

// Gives an answer's parts out as C takes them: the number returned, the others through pointers.
fn give(answered: Result<u32, Refused>, flow: &mut u32, tick: &mut u32, count: &mut u32) -> u32
    ensures { Given (parts answered) result flow.new tick.new count.new }
{
    let answer = table::parts(answered);
    *flow = answer.flow;
    *tick = answer.tick;
    *count = answer.count;
    answer.number
}

// Reads a packed table into plain form: the count of flows, and four words a flow.
#[unsafe(no_mangle)]
pub extern "C" fn baarqidho_read(
    packed: &[u8],
    words: &mut [u32],
    flow: &mut u32,
    tick: &mut u32,
    count: &mut u32,
) -> u32
    ensures answered { Given (read_answer packed.now (length words.old))
        result flow.new tick.new count.new }
    ensures stored { words.new ≡ words_after packed.now words.old }
{
    give(table::read(packed, words), flow, tick, count)
}

// Writes a table in plain form as a packed table: the count of bytes.
#[unsafe(no_mangle)]
pub extern "C" fn baarqidho_write(
    flows: u32,
    words: &[u32],
    packed: &mut [u8],
    flow: &mut u32,
    tick: &mut u32,
    count: &mut u32,
) -> u32
    ensures answered { Given (write_answer flows words.now (length packed.old))
        result flow.new tick.new count.new }
    ensures stored { packed.new ≡ bytes_after flows words.now packed.old }
{
    let answered = table::write(flows, words, packed);
    give(answered, flow, tick, count)
}

// Checks a table in plain form: the count of flows, and the words of a clock for each flow.
#[unsafe(no_mangle)]
pub extern "C" fn baarqidho_check(
    flows: u32,
    words: &[u32],
    clocks: &mut [u32],
    flow: &mut u32,
    tick: &mut u32,
    count: &mut u32,
) -> u32
    ensures answered { Given (check_answer flows words.now (length clocks.old))
        result flow.new tick.new count.new }
    ensures stored { clocks.new ≡ clocks_after flows words.now clocks.old }
{
    let answered = checker::check(flows, words, clocks);
    give(answered, flow, tick, count)
}

// Runs a table in plain form over a log: the count of ticks, and a mark and a value a cell.
#[unsafe(no_mangle)]
pub extern "C" fn baarqidho_run(
    flows: u32,
    words: &[u32],
    log: &[u32],
    ticks: u32,
    marks: &mut [u8],
    values: &mut [u32],
    flow: &mut u32,
    tick: &mut u32,
    count: &mut u32,
) -> u32
    ensures answered { Given (run_answer flows words.now log.now ticks (length marks.old) (length values.old))
        result flow.new tick.new count.new }
    ensures marked { marks.new ≡ marks_after flows words.now log.now ticks marks.old values.old }
    ensures valued { values.new ≡ values_after flows words.now log.now ticks marks.old values.old }
{
    let answered = runner::run(flows, words, log, ticks, marks, values);
    give(answered, flow, tick, count)
}

// Checks a table in plain form and runs it over a log for many ticks: the count of ticks, a mark and a value a cell of the window, and two words
// a flow.
#[unsafe(no_mangle)]
pub extern "C" fn baarqidho_long_run(
    flows: u32,
    words: &[u32],
    log: &[u32],
    ticks: u32,
    marks: &mut [u8],
    values: &mut [u32],
    tallies: &mut [u32],
    flow: &mut u32,
    tick: &mut u32,
    count: &mut u32,
) -> u32
    ensures answered { Given
        (long_answer flows words.now log.now ticks (length marks.old) (length values.old)
        (length tallies.old))
        result flow.new tick.new count.new }
    ensures left { LongLeft flows log.now ticks
        (long_rows flows words.now log.now ticks (length marks.old) (length values.old)
        (length tallies.old))
        marks.old values.old tallies.old marks.new values.new tallies.new }
{
    let answered = runner::long_run(flows, words, log, ticks, marks, values, tallies);
    give(answered, flow, tick, count)
}

// Counts the words that a trace of a table in plain form has in the archive.
#[unsafe(no_mangle)]
pub extern "C" fn baarqidho_stored_words(
    flows: u32,
    words: &[u32],
    ticks: u32,
    flow: &mut u32,
    tick: &mut u32,
    count: &mut u32,
) -> u32
    ensures { Given (size_answer flows words.now ticks) result flow.new tick.new count.new }
{
    let answered = archive::stored_words(flows, words, ticks);
    give(answered, flow, tick, count)
}

// Stores a trace of a table in plain form, flow after flow the values present: the count of words.
#[unsafe(no_mangle)]
pub extern "C" fn baarqidho_store(
    flows: u32,
    words: &[u32],
    ticks: u32,
    marks: &[u8],
    values: &[u32],
    stored: &mut [u32],
    flow: &mut u32,
    tick: &mut u32,
    count: &mut u32,
) -> u32
    ensures answered { Given (store_answer flows words.now ticks marks.now values.now (length stored.old))
        result flow.new tick.new count.new }
    ensures stored { stored.new ≡ stored_after flows words.now ticks marks.now values.now stored.old }
{
    let answered = archive::store(flows, words, ticks, marks, values, stored);
    give(answered, flow, tick, count)
}

// Restores a stored trace of a table in plain form: the count of cells, and a mark and a value a cell.
#[unsafe(no_mangle)]
pub extern "C" fn baarqidho_restore(
    flows: u32,
    words: &[u32],
    ticks: u32,
    stored: &[u32],
    marks: &mut [u8],
    values: &mut [u32],
    flow: &mut u32,
    tick: &mut u32,
    count: &mut u32,
) -> u32
    ensures answered { Given
        (cells_answer flows ticks
        (restoring flows words.now ticks (length stored.now) (length marks.old) (length values.old)))
        result flow.new tick.new count.new }
    ensures marked { marks.new ≡ marks_back flows ticks
        (restoring flows words.now ticks (length stored.now) (length marks.old) (length values.old))
        marks.old }
    ensures valued { values.new ≡ values_back flows ticks
        (restoring flows words.now ticks (length stored.now) (length marks.old) (length values.old))
        stored.now values.old }
{
    let answered = archive::restore(flows, words, ticks, stored, marks, values);
    give(answered, flow, tick, count)
}

// Lists a packed table as text: the count of bytes.
#[unsafe(no_mangle)]
pub extern "C" fn baarqidho_listing(
    packed: &[u8],
    text: &mut [u8],
    flow: &mut u32,
    tick: &mut u32,
    count: &mut u32,
) -> u32
    ensures answered { Given (listing_answer packed.now (length text.old))
        result flow.new tick.new count.new }
    ensures stored { text.new ≡ text_after packed.now text.old }
{
    give(lister::listing(packed, text), flow, tick, count)
}

// Writes the load page of a table in plain form, from one worst time a flow: the count of bytes.
#[unsafe(no_mangle)]
pub extern "C" fn baarqidho_load_page(
    flows: u32,
    words: &[u32],
    times: &[u16],
    page: &mut [u8],
    flow: &mut u32,
    tick: &mut u32,
    count: &mut u32,
) -> u32
    ensures answered { Given (page_answer flows words.now times.now (length page.old))
        result flow.new tick.new count.new }
    ensures stored { page.new ≡ page_after flows words.now times.now page.old }
{
    let answered = loads::page(flows, words, times, page);
    give(answered, flow, tick, count)
}

// Gives the least part of a table in plain form that the check still answers with 21: the count of its flows, and four words a flow.
#[unsafe(no_mangle)]
pub extern "C" fn baarqidho_least_part(
    flows: u32,
    words: &[u32],
    part: &mut [u32],
    flow: &mut u32,
    tick: &mut u32,
    count: &mut u32,
) -> u32
    ensures answered { Given (least_answer flows words.now (length part.old))
        result flow.new tick.new count.new }
    ensures stored { part.new ≡ part_after flows words.now part.old }
{
    let answered = least::least(flows, words, part);
    give(answered, flow, tick, count)
}

// Gives the numbers that the flows of the least part have in the table: their count, and a word a flow.
#[unsafe(no_mangle)]
pub extern "C" fn baarqidho_least_flows(
    flows: u32,
    words: &[u32],
    numbers: &mut [u32],
    flow: &mut u32,
    tick: &mut u32,
    count: &mut u32,
) -> u32
    ensures answered { Given (flows_answer flows words.now (length numbers.old))
        result flow.new tick.new count.new }
    ensures stored { numbers.new ≡ flows_after flows words.now numbers.old }
{
    let answered = least::least_flows(flows, words, numbers);
    give(answered, flow, tick, count)
}

// Fills in the rates of the inputs of a table in plain form that have none written: the count of flows, and four words a flow.
#[unsafe(no_mangle)]
pub extern "C" fn baarqidho_fill_rates(
    flows: u32,
    words: &[u32],
    filled: &mut [u32],
    flow: &mut u32,
    tick: &mut u32,
    count: &mut u32,
) -> u32
    ensures { Filled flows words.now filled.old
        (answer_of result flow.new tick.new count.new) filled.new }
{
    let answered = rates::fill(flows, words, filled);
    give(answered, flow, tick, count)
}

// Gives the input rows that each flow of a table in plain form feels, as a set a flow, bit i for row i: the count of flows.
#[unsafe(no_mangle)]
pub extern "C" fn baarqidho_felt_inputs(
    flows: u32,
    words: &[u32],
    sets: &mut [u64],
    flow: &mut u32,
    tick: &mut u32,
    count: &mut u32,
) -> u32
    ensures answered { Given (felt_answer flows words.now (length sets.old))
        result flow.new tick.new count.new }
    ensures stored { sets.new ≡ felt_after flows words.now sets.old }
{
    let answered = influence::felt(flows, words, sets);
    give(answered, flow, tick, count)
}
