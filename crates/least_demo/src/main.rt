// Looks for the least part of some plans and writes, for each, its title, the answer's number, flow, tick and count with the whole buffer of words
// after it, and the same for the numbers of the part's flows. The buffers hold 9 where nothing was written.
#![tactic(auto)]

use std::io;
use table::Refused;

// A line with the four parts of an answer, and the words of a buffer. As `rates_demo` has it: programs share no code.
fn line(rt: &impl Print, answered: Result<u32, Refused>, words: &[u32]) -> io::Result<()> {
    let answer = table::parts(answered);
    print!(rt; "{answer}:")?;
    for word in words {
        print!(rt; " {word}")?;
    }
    println!(rt)
}

// The least part of a plan, and the numbers of its flows, in buffers.
fn lent(
    rt: &impl Print,
    count: u32,
    words: &[u32],
    rows: &mut [u32],
    flows: &mut [u32],
) -> io::Result<()> {
    let a = least::least(count, words, rows);
    line(rt, a, rows)?;
    let a = least::least_flows(count, words, flows);
    line(rt, a, flows)
}

// The same in buffers of 17 and 5 words.
fn shown(rt: &impl Print, title: &[u8], count: u32, words: &[u32]) -> io::Result<()> {
    rt.write_all(title)?;
    lent(rt, count, words, &mut [9; 17], &mut [9; 5])
}

// Five rows of which three clash: inputs (10, 0) and (20, 0), and their sum.
fn support(rt: &impl Print) -> io::Result<()> {
    let words = [0, 10, 0, 0, 0, 20, 0, 0, 4, 0, 0, 0, 7, 0, 1, 1, 2, 0, 1, 0];
    shown(rt, b"three of five\n", 5, &words)
}

// Flow 2 is refused, and fewer flows clash behind it.
fn elsewhere(rt: &impl Print) -> io::Result<()> {
    let words = [0, 6, 0, 0, 4, 0, 0, 0, 15, 0, 0, 1, 8, 0, 3, 3];
    shown(rt, b"behind the flow that is named\n", 4, &words)
}

// Flows 1 and 3 clash with one input each: the part of flow 1 is taken.
fn equals(rt: &impl Print) -> io::Result<()> {
    let words = [0, 4, 0, 0, 8, 0, 3, 1, 0, 6, 0, 0, 8, 2, 5, 1];
    shown(rt, b"the lowest of equals\n", 4, &words)
}

// A register's source that stands behind it, and is renumbered with it.
fn sources(rt: &impl Print) -> io::Result<()> {
    let words = [0, 3, 0, 0, 0, 2, 0, 0, 7, 5, 1, 4, 0, 9, 0, 0, 9, 3, 2, 0];
    shown(rt, b"a later source\n", 5, &words)
}

// Refusals, in their order: of the table, and of plans that the check answers with 0, 23 and 22, the last one before a flow that clashes.
fn refusals(rt: &impl Print) -> io::Result<()> {
    let words = [0, 10, 0, 0, 0, 20, 0, 0, 2, 0, 1, 0];
    shown(rt, b"a word too few\n", 3, &words[..11])?;
    shown(rt, b"operand not lower\n", 2, &[0, 1, 0, 0, 12, 1, 0, 0])?;
    shown(rt, b"accepted\n", 2, &words[..8])?;
    let conditional = [0, 1, 0, 0, 13, 0, 0, 0, 12, 1, 0, 0];
    shown(rt, b"not plain\n", 3, &conditional)?;
    let beyond = [0, 4095, 0, 0, 9, 0, 17, 0, 8, 0, 2, 2];
    shown(rt, b"beyond the limits\n", 3, &beyond)
}

// A word too few in each buffer, and just enough.
fn rooms(rt: &impl Print) -> io::Result<()> {
    let words = [0, 10, 0, 0, 0, 20, 0, 0, 2, 0, 1, 0];
    println!(rt; "a word short")?;
    lent(rt, 3, &words, &mut [9; 11], &mut [9; 2])?;
    println!(rt; "just enough")?;
    lent(rt, 3, &words, &mut [9; 12], &mut [9; 3])
}

fn main(rt: HostRuntime) -> io::Result<()> {
    support(&rt)?;
    elsewhere(&rt)?;
    equals(&rt)?;
    sources(&rt)?;
    refusals(&rt)?;
    rooms(&rt)
}
