// The bytes of a line that are kept: at most 80, in the front of an array.
// An array and a count: no heap, and no library beyond the standard one to trust.
ghost use Rattle.std.specs.Prelude.{◌≡◌, ◌≤◌, length};
ghost use Rattle.lines.specs.Lines.{max_line};

use crate::line::LineBuffer;

mod kept;

#[derive(Clone, Copy)]
pub(crate) struct Held {
    bytes: [u8; LineBuffer::MAX],
    len: usize,
    ghost full: { length bytes ≡ max_line },
    ghost short: { len ≤ max_line },
}
