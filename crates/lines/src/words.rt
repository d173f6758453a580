// The words of a line, with one space between them.
ghost use Rattle.std.specs.Prelude.{◌≡◌, ◌∷◌};
ghost use Rattle.lines.specs.Words.{split, word_reply, end_reply, later};
ghost use Rattle.lines.specs.Parts.{part_words, rest_words, told};

use crate::fault::LineFault;

// The text before the first space, and the text behind it.
fn cut(text: &[u8]) -> (&[u8], Option<&[u8]>)
    ensures { result.0.now ∷ part_words result.1 ≡ split 32 text.now }
{
    match text.iter().position(|byte| *byte == b' ') {
        Some(at) => (&text[..at], Some(&text[at + 1..])),
        None => (text, None),
    }
}

// The part of a line that has not been taken as words, or none behind its last word.
// Not the library's `Split`, which holds a closure: each contract here would have to say what that computes.
#[derive(Clone, Copy)]
pub(crate) struct Words<'a> {
    rest: Option<&'a [u8]>,
}

impl<'a> Words<'a> {
    pub(crate) fn of(line: &'a [u8]) -> Words<'a>
        ensures { rest_words result ≡ split 32 line.now }
    {
        Words { rest: Some(line) }
    }

    // Takes the next word. A word is missing where none is left, or where it is empty.
    pub(crate) fn next(&mut self) -> Result<&'a [u8], LineFault>
        ensures reply { told result ≡ word_reply (rest_words self.old) }
        ensures after { rest_words self.new ≡ later (rest_words self.old) }
    {
        let text = self.rest.ok_or(LineFault::Malformed)?;
        let (word, rest) = cut(text);
        self.rest = rest;
        if word.is_empty() {
            return Err(LineFault::Malformed);
        }
        Ok(word)
    }

    // Sees that no word is left. A match: an error where there is something, as `ok_or` is where there is nothing.
    #[tactic(auto, using(crate::proofs::Cuts::some_words))]
    pub(crate) fn end(&self) -> Result<(), LineFault>
        ensures { result ≡ end_reply (rest_words self.now) }
    {
        match self.rest {
            Some(_) => Err(LineFault::Malformed),
            None => Ok(()),
        }
    }
}
