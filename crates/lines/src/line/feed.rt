// Bytes into lines.
ghost use Rattle.std.specs.Prelude.{◌≡◌, false, [], Some, ◌==◌};
ghost use Rattle.lines.specs.Lines.{fed, begun, grown, pending, line_reply};
ghost use Rattle.lines.specs.Buffers.{reading};
ghost use Rattle.lines.specs.Parts.{told};

use crate::fault::LineFault;
use crate::held::Held;
use crate::line::LineBuffer;

impl LineBuffer {
    // The most bytes of a line before its newline.
    pub const MAX: usize = 80;

    // Before the first byte of the input.
    pub fn new() -> LineBuffer
        ensures { reading result ≡ (Some [], false) }
    {
        LineBuffer {
            line: Some(Held::new()),
            ended: false,
        }
    }

    // Takes the next byte of the input. True where it ends the line.
    pub fn feed(&mut self, byte: u8) -> bool
        ensures reply { result ≡ (byte == 10) }
        ensures after { reading self.new ≡ fed (reading self.old) byte }
    {
        self.begin();
        if byte == b'\n' {
            self.ended = true;
            return true;
        }
        self.push(byte);
        false
    }

    // Behind a line that ended, the next one begins.
    fn begin(&mut self)
        ensures { reading self.new ≡ (begun (reading self.old), false) }
    {
        if self.ended {
            self.line.get_or_insert_with(Held::new).clear();
            self.ended = false;
        }
    }

    // One byte more of the line.
    fn push(&mut self, byte: u8)
        ensures { reading self.new ≡ (grown (reading self.old).0 byte, (reading self.old).1) }
    {
        if let Some(bytes) = &mut self.line
            && !bytes.push(byte)
        {
            self.line = None;
        }
    }

    // The line so far, unless more than 80 bytes of it came.
    pub fn line(&self) -> Result<&[u8], LineFault>
        ensures { told result ≡ line_reply (reading self.now).0 }
    {
        let bytes = self.line.as_ref().ok_or(LineFault::TooLong)?;
        Ok(bytes.as_slice())
    }

    // Whether bytes of a line came whose newline did not.
    pub fn pending(&self) -> bool
        ensures { result ≡ pending (reading self.now) }
    {
        !self.ended && self.line.as_ref().is_none_or(|bytes| !bytes.is_empty())
    }
}
