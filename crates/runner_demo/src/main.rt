// Runs some plans and writes, for each, its title, a line with the answer's number, flow, tick and count, and a line with some cells of the
// trace, mark and value; of a long run also the tallies. A trace that is stored has its words as well, and comes back. Trace, window, tallies
// and words hold 9 where nothing was written.
#![tactic(auto)]

use std::io;
use table::Refused;

// Room for the trace of every plan here, and some cells more.
const ROOM: usize = 36;

// Room for the window of two flows, and a cell more.
const WINDOW: usize = 2 * 131072 + 1;

// A line with the four parts of an answer.
fn answer(rt: &impl Print, answered: Result<u32, Refused>) -> io::Result<()> {
    let answer = table::parts(answered);
    println!(rt; "{answer}")
}

// The cells from one place to another, mark and value, each after a space.
fn cells(rt: &impl Print, marks: &[u8], values: &[u32], from: usize, to: usize) -> io::Result<()> {
    for (mark, value) in marks.iter().zip(values.iter()).take(to).skip(from) {
        print!(rt; " {mark}:{value}")?;
    }
    Ok(())
}

// A run, and the cells of its trace from one place to another.
fn shown(
    rt: &impl Print,
    title: &[u8],
    count: u32,
    words: &[u32],
    log: &[u32],
    ticks: u32,
    from: usize,
    to: usize,
) -> io::Result<()> {
    let mut marks = [9u8; ROOM];
    let mut values = [9u32; ROOM];
    let a = runner::run(count, words, log, ticks, &mut marks, &mut values);
    rt.write_all(title)?;
    answer(rt, a)?;
    cells(rt, &marks, &values, from, to)?;
    println!(rt)
}

// Plan D: inputs (10, 0) and (20, 0) and their sum. Ten ticks end; eleven clash at tick 10 and leave the sum's cell and all after it.
fn plan_d(rt: &impl Print) -> io::Result<()> {
    let words = [0, 10, 0, 0, 0, 20, 0, 0, 2, 0, 1, 0];
    let mut log = [0u32; 22];
    log[0] = 5;
    log[1] = 7;
    shown(rt, b"D, 10 ticks\n", 3, &words, &log[..20], 10, 0, 32)?;
    log[20] = 8;
    shown(rt, b"D, 11 ticks\n", 3, &words, &log, 11, 27, 34)
}

// Plan K: a register with the initial value 7, its beat and source input (2, 0).
fn plan_k(rt: &impl Print) -> io::Result<()> {
    let words = [0, 2, 0, 0, 7, 7, 0, 0];
    let log = [10, 11, 12, 13, 14];
    shown(rt, b"K\n", 2, &words, &log, 5, 0, 11)
}

// Plan K for a tick more than the window has: tick 131,072 stands where tick 0 stood.
fn long_k(rt: &impl Print) -> io::Result<()> {
    let words = [0, 2, 0, 0, 7, 7, 0, 0];
    let mut log = [0u32; 131073];
    log[0] = 3;
    log[131070] = 4;
    log[131072] = 5;
    let mut marks = [9u8; WINDOW];
    let mut values = [9u32; WINDOW];
    let mut tallies = [9u32; 5];
    let a = runner::long_run(
        2,
        &words,
        &log,
        131073,
        &mut marks,
        &mut values,
        &mut tallies,
    );
    println!(rt; "K, long, 131073 ticks")?;
    answer(rt, a)?;
    cells(rt, &marks, &values, 0, 6)?;
    cells(rt, &marks, &values, 262140, 262145)?;
    println!(rt)?;
    listed(rt, &tallies)?;
    println!(rt)
}

// Readings of 5, -20 and -30, the limit -20, whether a reading is less, and the larger of the two.
fn below_zero(rt: &impl Print) -> io::Result<()> {
    let words = [0, 1, 0, 0, 1, 4294967276, 1, 0, 4, 0, 1, 0, 6, 0, 1, 0];
    let log = [5, 4294967276, 4294967266];
    shown(rt, b"below zero\n", 4, &words, &log, 3, 0, 13)
}

// A signal (2, 2) governed by a switch (3, 1) that is looked at every 6 ticks, in tick 1 for ticks 2 to 7 and in tick 7 for ticks 8 to 13; and by
// one that begins after it.
fn seen(rt: &impl Print) -> io::Result<()> {
    let words = [0, 3, 1, 0, 0, 2, 2, 0, 18, 1, 0, 6];
    let log = [
        9, 9, 0, 9, 9, 102, 9, 9, 4, 104, 9, 9, 9, 106, 7, 9, 9, 108, 9, 9, 0, 110,
    ];
    shown(rt, b"seen every 6 ticks\n", 3, &words, &log, 11, 0, 34)?;
    let words = [0, 1, 2, 0, 0, 1, 1, 0, 17, 1, 0, 1];
    shown(rt, b"not begun\n", 3, &words, &log[..6], 3, 0, 10)
}

// Each word, after a space.
fn listed(rt: &impl Print, words: &[u32]) -> io::Result<()> {
    for word in words {
        print!(rt; " {word}")?;
    }
    Ok(())
}

// A trace of 8 ticks of three flows stored, and all words after it.
fn stored(
    rt: &impl Print,
    title: &[u8],
    words: &[u32],
    marks: &[u8],
    values: &[u32],
    kept: &mut [u32],
) -> io::Result<()> {
    let a = archive::store(3, words, 8, marks, values, kept);
    rt.write_all(title)?;
    answer(rt, a)?;
    listed(rt, kept)?;
    println!(rt)
}

// Stored words restored, and all cells after it.
fn restored(rt: &impl Print, title: &[u8], words: &[u32], kept: &[u32]) -> io::Result<()> {
    let mut marks = [9u8; 24];
    let mut values = [9u32; 24];
    let a = archive::restore(3, words, 8, kept, &mut marks, &mut values);
    rt.write_all(title)?;
    answer(rt, a)?;
    cells(rt, &marks, &values, 0, 24)?;
    println!(rt)
}

// An input (2, 0), its slower copy by 2, which is (4, 0), and an input (3, 1): for 8 ticks four words, two and three. A value where there is none,
// and a word too few, are refused.
fn archived(rt: &impl Print) -> io::Result<()> {
    let words = [0, 2, 0, 0, 9, 0, 2, 0, 0, 3, 1, 0];
    let marks = [
        1, 1, 0, 0, 0, 1, 1, 0, 0, 0, 0, 0, 1, 1, 1, 0, 0, 0, 1, 0, 0, 0, 0, 1,
    ];
    let mut values = [
        10, 10, 0, 0, 0, 31, 12, 0, 0, 0, 0, 0, 14, 14, 34, 0, 0, 0, 16, 0, 0, 0, 0, 37,
    ];
    let mut kept = [9u32; 9];
    stored(rt, b"stored\n", &words, &marks, &values, &mut kept)?;
    restored(rt, b"restored\n", &words, &kept)?;
    restored(rt, b"a word too few\n", &words, &[1, 2, 3, 4, 5, 6, 7, 8])?;
    values[3] = 1;
    stored(
        rt,
        b"a value where there is none\n",
        &words,
        &marks,
        &values,
        &mut [9; 9],
    )
}

// A refusal of the table names its row and leaves all.
fn unknown_kind(rt: &impl Print) -> io::Result<()> {
    let words = [0, 1, 0, 0, 16, 0, 0, 0];
    let log = [1, 2];
    shown(rt, b"kind 16 in row 1\n", 2, &words, &log, 2, 0, 2)
}

fn main(rt: HostRuntime) -> io::Result<()> {
    plan_d(&rt)?;
    plan_k(&rt)?;
    long_k(&rt)?;
    below_zero(&rt)?;
    seen(&rt)?;
    archived(&rt)?;
    unknown_kind(&rt)
}
