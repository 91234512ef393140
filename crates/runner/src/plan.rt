// A plan as a run has it ready.
ghost use Rattle.std.specs.Prelude.{◌≡◌, ◌+◌, ◌*◌, ◌<◌, ◌≤◌, IsTrue, length, slice_index};
ghost use Rattle.table.specs.Rows.{max_flows, row_size};
ghost use Rattle.table.specs.Plain.{plain_answer};
ghost use Rattle.semantics.specs.Runs as runs;
ghost use Rattle.runner.specs.Private.Ready.{rows_in, numbers, is_register};
ghost use Rattle.runner.specs.Private.Placed.{first_cell, is_mask};

use table::ROW_SIZE;

// What does not change in a run: how many rows there are, the words of their table, which is not refused, the numbers of the registers, the count
// of inputs, the log, and the mask that leaves of a tick its place. The list of the rows that look back is handed on beside it: a part of it, it
// took the registers of the processor that a cell needs, and each cell an instruction more.
#[derive(Clone, Copy)]
pub(crate) struct Plan<'a> {
    pub(crate) n: usize,
    pub(crate) words: &'a [u32],
    pub(crate) registers: &'a [u32],
    pub(crate) inputs: usize,
    pub(crate) log: &'a [u32],
    pub(crate) mask: usize,
    ghost few: { n ≤ max_flows },
    ghost size: { length words.now ≡ row_size * n },
    ghost examined: { (plain_answer n words.now).number ≡ 0 },
    ghost registers_listed: { registers.now ≡ numbers is_register n words.now },
    ghost counted: { inputs ≡ runs.inputs (rows_in n words.now) },
    ghost masked: { IsTrue (is_mask mask) },
}

impl<'a> Plan<'a> {
    // The third field of row f, by its place: a row is read word by word where it is worked out.
    pub(crate) fn third(self, f: usize) -> u32
        requires { f < self.n }
        ensures { result ≡ slice_index self.entry.words.now (row_size * f + 3) }
    {
        self.words[ROW_SIZE * f + 3]
    }

    // The place of tick t's first cell: what the mask leaves of the tick, n cells a tick.
    pub(crate) fn first_cell(self, t: u32) -> usize
        ensures { result ≡ first_cell (self.entry.mask + 1) self.entry.n t }
    {
        ((t as usize) & self.mask) * self.n
    }
}
