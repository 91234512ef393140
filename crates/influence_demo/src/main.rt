// Asks of some plans which inputs each flow feels and writes, for each, its title, and the answer's number, flow, tick and count with the whole buffer
// of six sets after it, each as its number: bit i is row i. The buffer holds 9 where nothing was written.
#![tactic(auto)]

ghost use Rattle.std.specs.Prelude.{◌≤◌};

use std::io;

// Room for the sets of every plan here.
const ROOM: usize = 6;

// The sets of a plan, so many of the buffer lent, and all of the buffer after them.
fn shown<const LENT: usize>(
    rt: &impl Print,
    title: &[u8],
    count: u32,
    words: &[u32],
) -> io::Result<()>
    requires { LENT ≤ 6 }
{
    let mut sets = [9u64; ROOM];
    let answer = table::parts(influence::felt(count, words, &mut sets[..LENT]));
    rt.write_all(title)?;
    print!(rt; "{answer}:")?;
    for set in &sets {
        print!(rt; " {set}")?;
    }
    println!(rt)
}

// Two registers through each other, each with an input as its beat: both feel both inputs. A register of its own values feels its beat alone, and one of
// a later input that input too.
fn registers(rt: &impl Print) -> io::Result<()> {
    let words = [0, 2, 0, 0, 0, 2, 0, 0, 7, 5, 0, 3, 7, 6, 1, 2];
    shown::<ROOM>(rt, b"registers through each other\n", 4, &words)?;
    let words = [0, 2, 0, 0, 0, 2, 0, 0, 7, 5, 0, 2];
    shown::<ROOM>(rt, b"a register of its own values\n", 3, &words)?;
    let words = [0, 2, 0, 0, 7, 5, 0, 3, 1, 4, 2, 0, 0, 2, 0, 0];
    shown::<ROOM>(rt, b"a later source\n", 4, &words)
}

// A condition is felt where it is sampled, merged by, and seen at a slower pace, and by what comes after that.
fn conditions(rt: &impl Print) -> io::Result<()> {
    let words = [
        0, 4, 0, 0, 0, 4, 0, 0, 13, 0, 1, 0, 14, 0, 1, 0, 15, 1, 2, 3,
    ];
    shown::<ROOM>(rt, b"sampled and merged\n", 5, &words)?;
    let words = [1, 7, 4, 0, 0, 4, 0, 0, 13, 0, 1, 0, 2, 2, 2, 0];
    shown::<ROOM>(rt, b"a constant under a condition\n", 4, &words)?;
    let words = [0, 3, 1, 0, 0, 2, 2, 0, 18, 1, 0, 6, 9, 1, 3, 0];
    shown::<ROOM>(rt, b"seen every 6 ticks\n", 4, &words)
}

// Values that do not change with the input are reached from it all the same; a constant is reached from none.
fn reached(rt: &impl Print) -> io::Result<()> {
    shown::<ROOM>(rt, b"x - x\n", 2, &[0, 1, 0, 0, 3, 0, 0, 0])?;
    shown::<ROOM>(rt, b"constants\n", 2, &[1, 7, 3, 0, 9, 0, 2, 0])
}

// Refusals of the table, and of the check. Each leaves the sets.
fn refusals(rt: &impl Print) -> io::Result<()> {
    let words = [0, 10, 0, 0, 0, 20, 0, 0, 2, 0, 1, 0];
    shown::<ROOM>(rt, b"a word too few\n", 3, &words[..11])?;
    shown::<ROOM>(rt, b"unknown kind\n", 1, &[16, 0, 0, 0])?;
    shown::<ROOM>(rt, b"clocks that differ\n", 3, &words)?;
    let conditional = [0, 1, 0, 0, 13, 0, 0, 0, 12, 1, 0, 0];
    shown::<ROOM>(rt, b"not plain\n", 3, &conditional)
}

// A set too few, of a plan that the check refuses and of one that it accepts, and just enough.
fn rooms(rt: &impl Print) -> io::Result<()> {
    let refused = [0, 10, 0, 0, 0, 20, 0, 0, 2, 0, 1, 0];
    shown::<2>(rt, b"clocks that differ, and a set short\n", 3, &refused)?;
    let words = [0, 10, 0, 0, 0, 10, 0, 0, 2, 0, 1, 0];
    shown::<2>(rt, b"a set short\n", 3, &words)?;
    shown::<3>(rt, b"just enough\n", 3, &words)
}

fn main(rt: HostRuntime) -> io::Result<()> {
    registers(&rt)?;
    conditions(&rt)?;
    reached(&rt)?;
    refusals(&rt)?;
    rooms(&rt)
}
