// Makes the load pages of some plans and writes, for each, its title, a line with the answer's number, flow, tick and count, and the whole
// buffer, which holds dots where nothing was written.
#![tactic(auto)]

use std::io;

const LINE: usize = loads::LINE_SIZE;

// A page in a buffer.
fn shown(
    rt: &impl Print,
    title: &[u8],
    count: u32,
    words: &[u32],
    times: &[u16],
    page: &mut [u8],
) -> io::Result<()> {
    let answer = table::parts(loads::page(count, words, times, page));
    rt.write_all(title)?;
    println!(rt; "{answer}")?;
    rt.write_all(page)?;
    println!(rt)
}

// Halves, which go to the even neighbour: 7812.5, 62.5 and 187.5, and a total of what is printed.
fn halves(rt: &impl Print) -> io::Result<()> {
    let words = [0, 32, 4, 0, 0, 16, 0, 0, 13, 1, 1, 0];
    let times = [250, 1, 3];
    shown(
        rt,
        b"halves\n",
        3,
        &words,
        &times,
        &mut [b'.'; 4 * LINE + 3],
    )?;
    let words = [0, 3, 0, 0, 0, 3, 0, 0, 0, 3, 0, 0];
    shown(
        rt,
        b"thirds\n",
        3,
        &words,
        &[1, 1, 2],
        &mut [b'.'; 4 * LINE],
    )
}

// Lines by period, equal periods by phase, and then by flow.
fn order(rt: &impl Print) -> io::Result<()> {
    let words = [0, 8, 7, 0, 0, 8, 3, 0, 0, 2, 9, 0, 0, 8, 3, 0, 0, 1, 0, 0];
    let times = [1, 2, 3, 4, 5];
    shown(rt, b"order\n", 5, &words, &times, &mut [b'.'; 6 * LINE])
}

// The longest period and phase, the largest load, and 0 to 3 conditions.
fn widest(rt: &impl Print) -> io::Result<()> {
    let words = [0, 3855, 0, 0, 9, 0, 17, 0, 12, 1, 0, 0];
    let times = [65535, 65534, 1];
    shown(rt, b"slow\n", 3, &words, &times, &mut [b'.'; 4 * LINE])?;
    let words = [0, 1, 0, 0, 13, 0, 0, 0, 14, 1, 1, 0, 13, 2, 2, 0];
    let times = [65535, 65534, 0, 1];
    shown(
        rt,
        b"conditions\n",
        4,
        &words,
        &times,
        &mut [b'.'; 5 * LINE],
    )
}

// As many flows as a table may have, each with the largest load.
fn most(rt: &impl Print) -> io::Result<()> {
    let mut words = [0u32; 4 * 64];
    for f in 0..64 {
        words[4 * f + 1] = 1;
    }
    shown(
        rt,
        b"most\n",
        64,
        &words,
        &[65535; 64],
        &mut [b'.'; 65 * LINE],
    )
}

// Refusals, in their order: of the table, of the check, of the times, of the page. Each leaves the page.
fn refusals(rt: &impl Print) -> io::Result<()> {
    let words = [0, 10, 0, 0, 0, 20, 0, 0, 2, 0, 1, 0];
    let mut page = [b'.'; 3 * LINE];
    shown(rt, b"unknown kind\n", 1, &[16, 0, 0, 0], &[], &mut page)?;
    shown(rt, b"clocks that differ\n", 3, &words, &[], &mut page)?;
    shown(rt, b"a time too few\n", 2, &words[..8], &[1], &mut page)?;
    let mut short = [b'.'; 3 * LINE - 1];
    shown(
        rt,
        b"a time too many\n",
        2,
        &words[..8],
        &[1, 2, 3],
        &mut short,
    )?;
    shown(rt, b"a byte too few\n", 2, &words[..8], &[1, 2], &mut short)?;
    shown(rt, b"just enough\n", 2, &words[..8], &[1, 2], &mut page)
}

fn main(rt: HostRuntime) -> io::Result<()> {
    halves(&rt)?;
    order(&rt)?;
    widest(&rt)?;
    most(&rt)?;
    refusals(&rt)
}
