// Bytes kept, one by one.
ghost use Rattle.std.specs.Prelude.{◌≡◌, ◌==◌, [], ◌∷◌, ◌++◌, cond, length, nat_lt};
ghost use Rattle.lines.specs.Buffers.{held};
ghost use Rattle.lines.specs.Lines.{max_line};

use crate::held::Held;
use crate::line::LineBuffer;

impl Held {
    pub(crate) fn new() -> Held
        ensures { held result ≡ [] }
    {
        Held {
            bytes: [0; LineBuffer::MAX],
            len: 0,
        }
    }

    pub(crate) fn as_slice(&self) -> &[u8]
        ensures { result.now ≡ held self.now }
    {
        &self.bytes[..self.len]
    }

    pub(crate) fn is_empty(&self) -> bool
        ensures { result ≡ (length (held self.now) == 0) }
    {
        self.len == 0
    }

    pub(crate) fn clear(&mut self)
        ensures { held self.new ≡ [] }
    {
        self.len = 0;
    }

    // Keeps one byte more, if there is room for it.
    pub(crate) fn push(&mut self, byte: u8) -> bool
        ensures room { result ≡ nat_lt (length (held self.old)) max_line }
        ensures after { held self.new ≡ cond result (held self.old ++ byte ∷ []) (held self.old) }
    {
        if self.len == LineBuffer::MAX {
            return false;
        }
        self.bytes[self.len] = byte;
        self.len += 1;
        true
    }
}
