// Fills in the rates of some drafts and writes, for each, its title, and the answer's number, flow, tick and count with the whole buffer of words after
// it. The buffer holds 9 where nothing was written.
#![tactic(auto)]

use std::io;
use table::Refused;

// A line with the four parts of an answer, and the words of a buffer. As `least_demo` has it: programs share no code.
fn line(rt: &impl Print, answered: Result<u32, Refused>, words: &[u32]) -> io::Result<()> {
    let answer = table::parts(answered);
    print!(rt; "{answer}:")?;
    for word in words {
        print!(rt; " {word}")?;
    }
    println!(rt)
}

// A draft filled in, in a buffer.
fn lent(rt: &impl Print, count: u32, words: &[u32], rows: &mut [u32]) -> io::Result<()> {
    let a = rates::fill(count, words, rows);
    line(rt, a, rows)
}

// The same in a buffer of 17 words.
fn shown(rt: &impl Print, title: &[u8], count: u32, words: &[u32]) -> io::Result<()> {
    rt.write_all(title)?;
    lent(rt, count, words, &mut [9; 17])
}

// An unrated input that is slowed down and compared with an input (60, 5): it has (20, 5).
fn slowed(rt: &impl Print) -> io::Result<()> {
    let words = [16, 0, 0, 0, 9, 0, 3, 0, 0, 60, 5, 0, 4, 1, 2, 0];
    shown(rt, b"up through slower\n", 4, &words)
}

// Up through faster, later, head and tail, each to an input (8, 24) at the end.
fn upward(rt: &impl Print) -> io::Result<()> {
    let words = [16, 0, 0, 0, 8, 0, 5, 8, 0, 8, 24, 0, 2, 1, 2, 0];
    shown(rt, b"up through faster\n", 4, &words)?;
    let words = [16, 0, 0, 0, 10, 0, 24, 0, 0, 8, 24, 0, 2, 1, 2, 0];
    shown(rt, b"up through later\n", 4, &words)?;
    let words = [16, 0, 0, 0, 11, 0, 1, 24, 0, 8, 24, 0, 2, 1, 2, 0];
    shown(rt, b"up through head\n", 4, &words)?;
    let words = [16, 0, 0, 0, 12, 0, 0, 0, 0, 8, 24, 0, 2, 1, 2, 0];
    shown(rt, b"up through tail\n", 4, &words)
}

// A register whose beat is rated and whose source is not; a condition and an operand likewise.
fn beside(rt: &impl Print) -> io::Result<()> {
    let words = [0, 7, 2, 0, 7, 0, 0, 2, 16, 0, 0, 0];
    shown(rt, b"a source by its beat\n", 3, &words)?;
    let words = [1, 5, 7, 2, 16, 0, 0, 0, 13, 0, 1, 0];
    shown(rt, b"a condition by what it governs\n", 3, &words)?;
    let words = [16, 0, 0, 0, 0, 60, 0, 0, 2, 0, 1, 0, 9, 0, 2, 0];
    shown(rt, b"an operand by the other\n", 4, &words)
}

// A view joins its result with what it governs, and with nothing else.
fn seen(rt: &impl Print) -> io::Result<()> {
    let words = [0, 10, 0, 0, 16, 0, 0, 0, 17, 1, 0, 30, 2, 0, 1, 0];
    shown(rt, b"a view is kept\n", 4, &words)?;
    let words = [0, 10, 0, 0, 16, 0, 0, 0, 18, 0, 1, 30];
    shown(rt, b"its condition is not joined\n", 3, &words)?;
    let words = [0, 10, 0, 0, 16, 0, 0, 0, 17, 1, 0, 15, 2, 0, 1, 0];
    shown(rt, b"a view period that does not fit\n", 4, &words)
}

// Refusals of the draft, and of flows that no chain joins to a rated one.
fn refusals(rt: &impl Print) -> io::Result<()> {
    let words = [0, 6, 0, 0, 16, 0, 0, 0, 16, 0, 0, 0];
    shown(rt, b"a word too few\n", 3, &words[..11])?;
    shown(rt, b"no such kind\n", 2, &[16, 0, 0, 0, 19, 0, 0, 0])?;
    shown(rt, b"a field where there is none\n", 1, &[16, 1, 0, 0])?;
    shown(rt, b"joined to nothing rated\n", 3, &words)?;
    shown(rt, b"none of them rated\n", 2, &[16, 0, 0, 0, 9, 0, 2, 0])
}

// Drafts of which no filling is accepted: a fraction, a phase below 0, a period that cannot be written, and two chains that differ.
fn none(rt: &impl Print) -> io::Result<()> {
    let words = [16, 0, 0, 0, 9, 0, 7, 0, 0, 60, 0, 0, 2, 1, 2, 0];
    shown(rt, b"a fraction\n", 4, &words)?;
    let words = [16, 0, 0, 0, 10, 0, 6, 0, 0, 60, 5, 0, 2, 1, 2, 0];
    shown(rt, b"below 0\n", 4, &words)?;
    let words = [16, 0, 0, 0, 8, 0, 63, 66, 0, 66, 0, 0, 2, 1, 2, 0];
    shown(rt, b"beyond the limits\n", 4, &words)?;
    let words = [16, 0, 0, 0, 0, 60, 0, 0, 2, 0, 1, 0, 8, 0, 7, 9];
    shown(rt, b"two rates\n", 4, &words)?;
    shown(
        rt,
        b"nothing to fill in, refused\n",
        2,
        &[0, 6, 0, 0, 8, 0, 5, 1],
    )
}

// A word too few in the buffer, and just enough.
fn rooms(rt: &impl Print) -> io::Result<()> {
    println!(rt; "no chain, and a word short")?;
    lent(rt, 2, &[0, 6, 3, 0, 16, 0, 0, 0], &mut [9; 7])?;
    println!(rt; "a word short")?;
    lent(rt, 3, &[0, 6, 3, 0, 16, 0, 0, 0, 2, 0, 1, 0], &mut [9; 11])?;
    println!(rt; "just enough")?;
    lent(rt, 3, &[0, 6, 3, 0, 16, 0, 0, 0, 2, 0, 1, 0], &mut [9; 12])
}

fn main(rt: HostRuntime) -> io::Result<()> {
    slowed(&rt)?;
    upward(&rt)?;
    beside(&rt)?;
    seen(&rt)?;
    refusals(&rt)?;
    none(&rt)?;
    rooms(&rt)
}
