// Writes the listing of the packed table on standard input, or says why it cannot be read.
// A cast by `as` stands where std has no `From`, or a constant may call none; that nothing is lost is proved.
#![tactic(auto)]

ghost use Rattle.std.specs.Prelude.{IfOk};
ghost use Rattle.list.specs.Private.Inputs.{Within};

use std::io;
use std::io::Read;
use std::process::ExitCode;

// One byte more than the longest table has: it decides every longer input.
const ROOM: usize = table::LONGEST_TABLE + 1;

// Reads to the end of the input, or until the buffer is full, and answers how many bytes it read. A read may give fewer than there is room for, and
// `read_to_end` would take memory.
fn read_all(input: &mut impl Read, packed: &mut [u8]) -> io::Result<usize>
    ensures { IfOk result (λ size. Within size packed.new) }
{
    let mut size = 0;
    while size < packed.len() {
        let more = input.read(&mut packed[size..])?;
        if more == 0 {
            return Ok(size);
        }
        size += more;
    }
    Ok(size)
}

// Writes the listing of a packed table. As `checker_demo` does: programs share no code.
fn list(rt: &impl Print, packed: &[u8]) -> io::Result<()> {
    let mut text = [0u8; lister::LONGEST];
    let Ok(size) = lister::listing(packed, &mut text) else {
        return Ok(());
    };
    rt.write_all(&text[..size as usize])
}

// Says on standard error in a line what failed, as far as it can be said.
fn failed(rt: &impl Eprint, what: &str, error: &io::Error) -> ExitCode {
    let _ = eprintln!(rt; "{what}: {error}");
    ExitCode::FAILURE
}

fn main(rt: HostRuntime) -> ExitCode {
    let mut packed = [0u8; ROOM];
    let size = match read_all(&mut rt.stdin(), &mut packed) {
        Ok(size) => size,
        Err(error) => return failed(&rt, "standard input", &error),
    };
    match list(&rt, &packed[..size]) {
        Ok(()) => ExitCode::SUCCESS,
        Err(error) => failed(&rt, "standard output", &error),
    }
}
