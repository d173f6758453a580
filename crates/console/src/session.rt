// A session: input as it comes in parts, and the text that answers it.
ghost use Rattle.std.specs.Prelude.{◌≡◌, false, [], ◌++◌, Some, string_bytes, OnOk};
ghost use Rattle.lines.specs.Buffers.{reading};
ghost use Rattle.console.specs.Sessions.{here};
ghost use Rattle.console.specs.Transcripts.{text_at, step, transcript, after, ending, ended};

use crate::console::Console;
use lines::LineBuffer;
use ordered::OrderedIndex;
use positions::Positions;
use std::fmt;

#[derive(Drop)]
pub struct Session<I: OrderedIndex<i64> + Drop> {
    console: Console<I>,
    line: LineBuffer,
}

impl<I: OrderedIndex<i64> + Drop> Session<I> {
    // Before the first byte of input.
    pub fn new(positions: Positions<I>) -> Session<I>
        ensures positions { result.console.positions ≡ positions }
        ensures lines { result.console.lines ≡ 0 }
        ensures line { reading result.line ≡ (Some [], false) }
    {
        Session {
            console: Console {
                positions,
                lines: 0,
            },
            line: LineBuffer::new(),
        }
    }

    // Takes a part of the input, and writes the answers to the lines that end in it.
    pub fn take(&mut self, input: &[u8], out: &mut String) -> fmt::Result
        ensures text { OnOk result (string_bytes out.new ≡ string_bytes out.old ++ transcript (I.limit self.old.console.positions) (here I.pairs self.old) input.now) }
        ensures after { OnOk result (here I.pairs self.new ≡ after (I.limit self.old.console.positions) (here I.pairs self.old) input.now) }
        ensures limit { I.limit self.new.console.positions ≡ I.limit self.old.console.positions }
    {
        self.take_bytes(input, out)
    }

    // The work of `take`, whose own proof is one step: the loop's invariant stands in a file.
    fn take_bytes(&mut self, input: &[u8], out: &mut String) -> fmt::Result
        ensures text { OnOk result (string_bytes out.new ≡ string_bytes out.old ++ transcript (I.limit self.old.console.positions) (here I.pairs self.old) input.now) }
        ensures after { OnOk result (here I.pairs self.new ≡ after (I.limit self.old.console.positions) (here I.pairs self.old) input.now) }
        ensures limit { I.limit self.new.console.positions ≡ I.limit self.old.console.positions }
    {
        for byte in input {
            self.take_byte(*byte, out)?;
        }
        Ok(())
    }

    fn take_byte(&mut self, byte: u8, out: &mut String) -> fmt::Result
        ensures text { OnOk result (string_bytes out.new ≡ string_bytes out.old ++ text_at (I.limit self.old.console.positions) (here I.pairs self.old) byte) }
        ensures after { here I.pairs self.new ≡ step (I.limit self.old.console.positions) (here I.pairs self.old) byte }
        ensures limit { I.limit self.new.console.positions ≡ I.limit self.old.console.positions }
    {
        if self.line.feed(byte) {
            let answer = self.console.answer(self.line.line());
            writeln!(out, "{answer}")?;
        }
        Ok(())
    }

    // At the end of the input: a last line may lack its newline.
    pub fn finish(&mut self, out: &mut String) -> fmt::Result
        ensures text { OnOk result (string_bytes out.new ≡ string_bytes out.old ++ ending (I.limit self.old.console.positions) (here I.pairs self.old)) }
        ensures after { here I.pairs self.new ≡ ended (I.limit self.old.console.positions) (here I.pairs self.old) }
        ensures limit { I.limit self.new.console.positions ≡ I.limit self.old.console.positions }
    {
        if self.line.pending() {
            self.take_byte(b'\n', out)?;
        }
        Ok(())
    }
}
