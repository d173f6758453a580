// The line that is being read, byte by byte: at most 80 bytes of it are kept.
use crate::held::Held;

mod feed;

#[derive(Drop)]
pub struct LineBuffer {
    // None where more bytes came.
    line: Option<Held>,
    // The line's newline came; whether the bytes count is said by `line` alone.
    ended: bool,
}
