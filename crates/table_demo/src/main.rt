// Reads and writes tables, refused ones among them, and prints each answer and then the whole buffer:
// number, flow, tick, count, a colon, and the cells. Buffers hold 7 everywhere before a call.
// A cast by `as` stands where std has no `From`, or a constant may call none; that nothing is lost is proved.
#![tactic(auto)]

use std::{fmt, io};
use table::Refused;

// Each cell, after a space.
fn print_cells<T: fmt::Display>(rt: &impl Print, cells: &[T]) -> io::Result<()> {
    for cell in cells {
        print!(rt; " {cell}")?;
    }
    Ok(())
}

// What a call answers, and then the buffer.
fn print_line<T: fmt::Display>(
    rt: &impl Print,
    call: &str,
    answered: Result<u32, Refused>,
    cells: &[T],
) -> io::Result<()> {
    let answer = table::parts(answered);
    print!(rt; "{call} {answer} :")?;
    print_cells(rt, cells)?;
    println!(rt)
}

fn read(rt: &impl Print, packed: &[u8], words: &mut [u32]) -> io::Result<()> {
    let found = table::read(packed, words);
    print_line(rt, "read", found, words)
}

fn write(rt: &impl Print, count: u32, words: &[u32], packed: &mut [u8]) -> io::Result<()> {
    let answered = table::write(count, words, packed);
    print_line(rt, "write", answered, packed)
}

fn examine(rt: &impl Print, count: u32, words: &[u32]) -> io::Result<()> {
    let answer = table::parts(table::examine(count, words));
    println!(rt; "examine {answer}")
}

// A packed table, read into ten words.
fn read_ten(rt: &impl Print, packed: &[u8]) -> io::Result<()> {
    let mut words = [7u32; 10];
    read(rt, packed, &mut words)
}

// A table in plain form, tested, and written into nine bytes.
fn write_nine(rt: &impl Print, count: u32, words: &[u32]) -> io::Result<()> {
    examine(rt, count, words)?;
    let mut packed = [7u8; 9];
    write(rt, count, words, &mut packed)
}

// Input (10, 0), slower 2, with room, with just enough room, and with too little.
fn paper(rt: &impl Print) -> io::Result<()> {
    read_ten(rt, &[2, 0, 5, 0, 2, 64, 8])?;
    let mut eight = [7u32; 8];
    read(rt, &[2, 0, 5, 0, 2, 64, 8], &mut eight)?;
    let mut seven = [7u32; 7];
    read(rt, &[2, 0, 5, 0, 2, 64, 8], &mut seven)?;
    write_nine(rt, 2, &[0, 10, 0, 0, 9, 0, 2, 0])?;
    let mut enough = [7u8; 7];
    write(rt, 2, &[0, 10, 0, 0, 9, 0, 2, 0], &mut enough)?;
    let mut short = [7u8; 6];
    write(rt, 2, &[0, 10, 0, 0, 9, 0, 2, 0], &mut short)
}

// Packed tables that are refused: the count, bits that end too early, the kind (18 is read, 19 is not), ranges.
fn read_refused(rt: &impl Print) -> io::Result<()> {
    read_ten(rt, &[])?;
    read_ten(rt, &[0, 0])?;
    read_ten(rt, &[65, 0, 5, 0, 0])?;
    read_ten(rt, &[1])?;
    read_ten(rt, &[2, 0, 5, 0])?;
    read_ten(rt, &[2, 0, 5, 0, 0])?;
    read_ten(rt, &[1, 128])?;
    read_ten(rt, &[1, 152])?;
    read_ten(rt, &[2, 0, 5, 0, 4, 0])?;
    read_ten(rt, &[2, 0, 5, 0, 4, 192])?;
    read_ten(rt, &[2, 0, 5, 0, 4, 64])?;
    read_ten(rt, &[2, 0, 5, 0, 4, 64, 0, 7, 128])?;
    read_ten(rt, &[2, 0, 5, 0, 4, 64, 0, 0, 0])?;
    read_ten(rt, &[1, 0, 0, 0, 0])?;
    read_ten(rt, &[2, 0, 5, 0, 2, 64, 0])
}

// Packed tables that are refused: operands and sources, and the filling.
fn read_misplaced(rt: &impl Print) -> io::Result<()> {
    read_ten(rt, &[1, 16, 0, 0])?;
    read_ten(rt, &[2, 0, 5, 0, 4, 64, 4, 7, 128])?;
    read_ten(rt, &[2, 0, 5, 0, 0, 128, 4])?;
    read_ten(rt, &[2, 0, 5, 0, 1, 192, 0, 0, 1, 192, 8])?;
    read_ten(rt, &[2, 0, 5, 0, 1, 192, 0, 0, 1, 192, 4])?;
    read_ten(rt, &[2, 0, 5, 0, 2, 64, 9])?;
    read_ten(rt, &[2, 0, 5, 0, 2, 64, 10])?;
    read_ten(rt, &[2, 0, 5, 0, 2, 64, 8, 0])
}

// Tables in plain form that are refused, a draft that is written among them.
fn write_refused(rt: &impl Print) -> io::Result<()> {
    write_nine(rt, 0, &[])?;
    write_nine(rt, 65, &[0, 10, 0, 0])?;
    write_nine(rt, 2, &[0, 10, 0, 0, 9, 0, 2])?;
    write_nine(rt, 1, &[16, 0, 0, 0])?;
    write_nine(rt, 1, &[16, 10, 0, 0])?;
    write_nine(rt, 1, &[19, 0, 0, 0])?;
    write_nine(rt, 2, &[0, 10, 0, 0, 18, 0, 0, 30])?;
    write_nine(rt, 2, &[0, 10, 0, 0, 18, 0, 0, 0])?;
    write_nine(rt, 2, &[0, 10, 0, 0, 17, 0, 0, 4096])?;
    write_nine(rt, 2, &[0, 10, 0, 0, 17, 0, 1, 30])?;
    write_nine(rt, 1, &[0, 0, 0, 0])?;
    write_nine(rt, 1, &[0, 10, 4096, 0])?;
    write_nine(rt, 1, &[0, 10, 0, 1])?;
    write_nine(rt, 2, &[0, 10, 0, 0, 2, 0, 64, 0])?;
    write_nine(rt, 2, &[0, 10, 0, 0, 2, 0, 1, 0])?;
    write_nine(rt, 2, &[0, 10, 0, 0, 7, 5, 0, 2])
}

// The first n bytes, and the table that they are.
fn read_first(rt: &impl Print, packed: &[u8], n: usize, words: &mut [u32]) -> io::Result<()> {
    if n <= packed.len() {
        print_cells(rt, &packed[..n])?;
        println!(rt)?;
        read(rt, &packed[..n], words)?;
    }
    Ok(())
}

// A table in plain form, written, and what was written read back.
fn there_and_back(
    rt: &impl Print,
    count: u32,
    words: &[u32],
    packed: &mut [u8],
    back: &mut [u32],
) -> io::Result<()> {
    let answer = table::parts(table::write(count, words, packed));
    print!(rt; "write {answer} :")?;
    read_first(rt, packed, answer.count as usize, back)
}

// A row of each kind, with room for the longest table.
fn all_kinds(rt: &impl Print) -> io::Result<()> {
    let rows = [
        0, 4095, 4095, 0, 1, 4294967295, 1, 0, 2, 0, 1, 0, 3, 1, 0, 0, 4, 2, 3, 0, 5, 4, 0, 0, 6,
        5, 5, 0, 7, 305419896, 6, 15, 8, 7, 63, 4095, 9, 8, 1, 0, 10, 9, 4095, 0, 11, 10,
        2147483648, 17, 12, 11, 0, 0, 13, 12, 0, 0, 14, 13, 12, 0, 15, 14, 13, 0, 16, 0, 0, 0, 17,
        15, 16, 4095, 18, 17, 0, 1,
    ];
    let mut packed = [7u8; table::LONGEST_TABLE];
    let mut back = [7u32; 78];
    there_and_back(rt, 19, &rows, &mut packed, &mut back)
}

fn main(rt: HostRuntime) -> io::Result<()> {
    paper(&rt)?;
    read_refused(&rt)?;
    read_misplaced(&rt)?;
    write_refused(&rt)?;
    all_kinds(&rt)
}
