// Writes the listings of some packed tables.
// A cast by `as` stands where std has no `From`, or a constant may call none; that nothing is lost is proved.
#![tactic(auto)]

use std::io;

// Writes the listing of a packed table. As `list` does: programs share no code.
fn show(rt: &impl Print, packed: &[u8]) -> io::Result<()> {
    let mut text = [0u8; lister::LONGEST];
    let Ok(size) = lister::listing(packed, &mut text) else {
        return Ok(());
    };
    rt.write_all(&text[..size as usize])
}

// Plans A to F.
fn operators(rt: &impl Print) -> io::Result<()> {
    // A: faster
    show(rt, b"\x02\x00\x01\x80\x02\x00\x0c\x00\x40")?;
    // B: slower
    show(rt, b"\x02\x00\x01\x80\x02\x40\x08")?;
    // C: slower, then faster
    show(rt, b"\x03\x00\x01\x80\x02\x40\x09\x00\x86\x00\x40")?;
    // D: periods 10 and 20 added
    show(rt, b"\x03\x00\x05\x00\x00\x00\x50\x00\x04\x00\x20")?;
    // E: copies that do not fill the period
    show(rt, b"\x02\x00\x05\x80\x02\x00\x08\x01\x40")?;
    // F: a period of 4095
    show(rt, b"\x02\x00\x20\x80\x02\x40\xfc")?;
    // F: a period of 4158
    show(rt, b"\x02\x00\x21\x00\x02\x40\xfc")
}

// Plans G and H.
fn edges(rt: &impl Print) -> io::Result<()> {
    // G: head a period before
    show(rt, b"\x02\x00\x02\x80\x52\xc0\x00\x00\x00\x07\x00\x50")?;
    // G: not a period before
    show(rt, b"\x02\x00\x02\x80\x4a\xc0\x00\x00\x00\x07\x00\x50")?;
    // H: a phase of 4095
    show(rt, b"\x02\x00\x00\x80\x02\x80\xff\xf0")?;
    // H: a phase of 4096
    show(rt, b"\x02\x00\x00\x80\x0a\x80\xff\xf0")
}

// Plans I to K.
fn sampling(rt: &impl Print) -> io::Result<()> {
    // I: sampled and merged
    show(
        rt,
        b"\x05\x00\x02\x00\x00\x00\x10\x00\x1a\x00\x2e\x00\x17\x82\x10\x60",
    )?;
    // I: merged the other way round
    show(
        rt,
        b"\x05\x00\x02\x00\x00\x00\x10\x00\x1a\x00\x2e\x00\x17\x82\x18\x40",
    )?;
    // J: the tail of a sampled flow
    show(
        rt,
        b"\x05\x00\x02\x00\x00\x00\x10\x00\x1a\x00\x2e\x00\x16\x04",
    )?;
    // K: a register of its own beat
    show(rt, b"\x02\x00\x01\x00\x01\xc0\x00\x00\x01\xc0\x00")
}

// Tails and constants.
fn kinds(rt: &impl Print) -> io::Result<()> {
    // tail
    show(rt, b"\x02\x00\x02\x80\x1b\x00")?;
    // a constant and an input subtracted
    show(
        rt,
        b"\x03\x0f\xff\xff\xff\xf8\x06\x00\x38\x00\x30\x01\xc6\x00\x20",
    )
}

// The longest periods and phases, and one more.
fn longest(rt: &impl Print) -> io::Result<()> {
    // slower 17 over (3855, 0), and its tail: a period and a phase of 65,535
    show(rt, b"\x03\x07\x87\x80\x02\x40\x45\x80\x80")?;
    // copies of it that do not fill its period
    show(rt, b"\x04\x07\x87\x80\x02\x40\x45\x80\xa0\x20\x40\x04")?;
    // slower 32 over (2048, 0): a period of 65,536
    show(rt, b"\x02\x04\x00\x00\x02\x40\x80")?;
    // a tail over (65535, 1): a phase of 65,536
    show(rt, b"\x03\x07\x87\x80\x0a\x40\x45\x80\x80")?;
    // sixteen flows later than (1, 4095): a phase of 65,535, and one of 65,536
    show(
        rt,
        b"\x11\x00\x00\xff\xfa\x80\xff\xf5\x03\xff\xea\x0b\xff\xd4\x1f\xff\xa8\x4f\xff\x50\xbf\xfe\xa1\xbf\xfd\x43\xff\
          \xfa\x88\xff\xf5\x13\xff\xea\x2b\xff\xd4\x5f\xff\xa8\xcf\xff\x51\xbf\xfe\xa3\xbf\xfd\x47\x80\x78",
    )?;
    show(
        rt,
        b"\x11\x00\x00\xff\xfa\x80\xff\xf5\x03\xff\xea\x0b\xff\xd4\x1f\xff\xa8\x4f\xff\x50\xbf\xfe\xa1\xbf\xfd\x43\xff\
          \xfa\x88\xff\xf5\x13\xff\xea\x2b\xff\xd4\x5f\xff\xa8\xcf\xff\x51\xbf\xfe\xa3\xbf\xfd\x47\x80\x80",
    )
}

// As many conditions as a clock may have, and one more.
fn conditions(rt: &impl Print) -> io::Result<()> {
    // four conditions
    show(
        rt,
        b"\x05\x00\x03\x80\x13\x40\x01\xc0\x82\xd0\x82\x70\x61\x80",
    )?;
    // a fifth
    show(
        rt,
        b"\x06\x00\x03\x80\x13\x40\x01\xc0\x82\xd0\x82\x70\x61\xb4\x41\x00",
    )?;
    // a merge by a flow that has four
    show(
        rt,
        b"\x06\x00\x03\x80\x13\x40\x01\xc0\x82\xd0\x82\x70\x61\xbc\x41\x04",
    )
}

// Conditions seen at a slower pace.
fn views(rt: &impl Print) -> io::Result<()> {
    // a mode switch every 15 ticks that governs a signal every 10, and a flow sampled under it
    show(
        rt,
        b"\x05\x00\x07\x80\x00\x00\x28\x00\x22\x08\x00\x3d\x20\x40\x01\xe6\x84\x10",
    )?;
    // phases that differ
    show(rt, b"\x03\x00\x07\x80\x28\x00\x28\x01\xe2\x08\x00\x78")?;
    // four conditions, of which the first is viewed, and every number as long as it can be there
    show(
        rt,
        b"\x15\x07\xff\xff\xfa\x80\xff\xf5\x03\xff\xea\x0b\xff\xd4\x1f\xff\xa8\x4f\xff\x50\xbf\xfe\xa1\xbf\xfd\x43\xff\xfa\x88\xff\
          \xf5\x13\xff\xea\x2b\xff\xd4\x5f\xff\xa8\xcf\xff\x51\xbf\xfe\xa3\xbf\xfd\x47\x80\x7c\x50\x43\xff\xda\x8a\x2e\x49\x26\xa6\x98",
    )?;
    // a view period that is no multiple of the signal's period, and one that is none of the switch's
    show(rt, b"\x03\x00\x07\x80\x00\x00\x28\x00\x22\x08\x00\x1e")?;
    show(rt, b"\x03\x00\x07\x80\x00\x00\x28\x00\x24\x08\x00\x28")?;
    // a switch that begins after the signal
    show(rt, b"\x03\x00\x07\x80\x08\x00\x28\x00\x22\x08\x00\x3c")?;
    // a view of a viewed flow, and a view by one
    show(
        rt,
        b"\x05\x00\x07\x80\x00\x00\x28\x00\x22\x08\x00\x3d\x20\x40\x01\xe8\x84\x00\x03\x80",
    )?;
    show(
        rt,
        b"\x05\x00\x07\x80\x00\x00\x28\x00\x22\x08\x00\x3d\x20\x40\x01\xe8\x82\x10\x03\x80",
    )?;
    // sampled directly, and seen every tick, added
    show(rt, b"\x04\x00\x00\x80\x03\x40\x02\x20\x00\x00\x22\x04\x20")
}

// Registers' sources.
fn registers(rt: &impl Print) -> io::Result<()> {
    // a source with another clock than the beat
    show(
        rt,
        b"\x03\x00\x01\x00\x00\x00\x0c\x00\x0e\x00\x00\x00\x02\x00\x20",
    )?;
    // the second of three registers differs
    show(
        rt,
        b"\x05\x00\x01\x00\x00\x00\x0c\x00\x0e\x00\x00\x00\x02\x00\x07\x00\x00\x00\x01\x00\x13\x80\x00\x00\x00\x82\x00",
    )?;
    // a source after the register
    show(rt, b"\x03\x00\x01\x00\x01\xc0\x00\x00\x01\x40\x08\x40\x02")
}

// As many flows as a table may have.
fn flows(rt: &impl Print) -> io::Result<()> {
    // 64 flows, of which 60 have four conditions; eight rows of 17 bits on a line
    show(
        rt,
        b"\x40\x00\x03\x80\x13\x40\x01\xc0\x82\xd0\x82\x70\x61\x88\
          \x41\x04\x20\x82\x10\x41\x08\x20\x84\x10\x42\x08\x21\x04\x10\x82\x08\
          \x41\x04\x20\x82\x10\x41\x08\x20\x84\x10\x42\x08\x21\x04\x10\x82\x08\
          \x41\x04\x20\x82\x10\x41\x08\x20\x84\x10\x42\x08\x21\x04\x10\x82\x08\
          \x41\x04\x20\x82\x10\x41\x08\x20\x84\x10\x42\x08\x21\x04\x10\x82\x08\
          \x41\x04\x20\x82\x10\x41\x08\x20\x84\x10\x42\x08\x21\x04\x10\x82\x08\
          \x41\x04\x20\x82\x10\x41\x08\x20\x84\x10\x42\x08\x21\x04\x10\x82\x08\
          \x41\x04\x20\x82\x10\x41\x08\x20\x84\x10\x42\x08\x21\x04\x10\x82\x08\
          \x41\x04\x20\x82\x10\x40",
    )
}

// Refusals 11 and 12.
fn shorts(rt: &impl Print) -> io::Result<()> {
    // no flow
    show(rt, b"\x00")?;
    // 65 flows
    show(rt, b"\x41\x00\x00\x80\x00")?;
    // no byte
    show(rt, b"")?;
    // cut short in a kind
    show(rt, b"\x02\x00\x00\x80\x00")?;
    // cut short in a field
    show(rt, b"\x02\x00\x05\x00\x02\x40")
}

// Refusals 13 to 15.
fn fields(rt: &impl Print) -> io::Result<()> {
    // kind 16
    show(rt, b"\x02\x00\x00\x80\x04\x00")?;
    // a period of 0
    show(rt, b"\x01\x00\x00\x00\x28")?;
    // a k of 0
    show(rt, b"\x02\x00\x00\x80\x02\x40\x00")?;
    // an operand that is not lower
    show(rt, b"\x02\x00\x00\x80\x03\x01")?;
    // a source that is not in the table
    show(rt, b"\x02\x00\x00\x80\x01\xc0\x00\x00\x00\x00\x08")
}

// Refusal 16.
fn ends(rt: &impl Print) -> io::Result<()> {
    // a filling bit
    show(rt, b"\x02\x00\x05\x00\x02\x40\x09")?;
    // a further byte
    show(rt, b"\x02\x00\x05\x00\x02\x40\x08\x00")
}

// Refusals 21 to 23.
fn clocks(rt: &impl Print) -> io::Result<()> {
    // phases that differ
    show(rt, b"\x03\x00\x02\x00\x00\x00\x10\x00\x4c\x00\x20")?;
    // a period beyond the limits
    show(rt, b"\x03\x00\x20\x00\x02\x40\xfd\x20\xa2")?;
    // slower over a sampled flow
    show(rt, b"\x03\x00\x02\x00\x03\x40\x01\x20\x84")?;
    // faster over a sampled flow of another period
    show(rt, b"\x03\x00\x02\x00\x03\x40\x01\x00\x86\x00\x40")
}

fn main(rt: HostRuntime) -> io::Result<()> {
    operators(&rt)?;
    edges(&rt)?;
    sampling(&rt)?;
    kinds(&rt)?;
    longest(&rt)?;
    conditions(&rt)?;
    views(&rt)?;
    registers(&rt)?;
    flows(&rt)?;
    shorts(&rt)?;
    fields(&rt)?;
    ends(&rt)?;
    clocks(&rt)
}
