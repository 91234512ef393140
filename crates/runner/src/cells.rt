// The cells of a tick as its flows are worked out.
ghost use Rattle.std.specs.Prelude.{◌≤◌, length};

// The cells of the flows below f, which stand at the front of marks and values: two slices, as C lends them.
#[derive(Clone, Copy)]
pub(crate) struct Cells<'a> {
    pub(crate) marks: &'a [u8],
    pub(crate) values: &'a [u32],
    pub(crate) f: usize,
    ghost marked: { f ≤ length marks.now },
    ghost valued: { f ≤ length values.now },
}
