// Bytes as text: each byte as the character of its number, so that bytes below 128 are written as they are.
ghost use Rattle.std.proofs.Math.Utf8.{encodes};
ghost use Rattle.std.specs.Prelude.{Some};

use std::fmt;

#[derive(Clone, Copy)]
pub(crate) struct Text<'a>(pub(crate) &'a [u8]);

impl fmt::Display for Text<'_> {
    ghost output = { λ t. Some (encodes t.0.now) };

    #[tactic(auto, using(crate::proofs::Spells::encodes_more, std::proofs::lemmas::Grind::common_steps))]
    fn fmt<W: fmt::Write>(&self, f: &mut fmt::Formatter<W>) -> fmt::Result {
        let bytes = self.0;
        for byte in bytes {
            f.write_char(char::from(*byte))?;
        }
        Ok(())
    }
}
