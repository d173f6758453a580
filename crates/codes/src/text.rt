// The bytes that codes and members are made of.
ghost use Rattle.std.specs.Prelude.{◌≡◌};
ghost use Rattle.codes.specs.Alphabets.{allowed, all_allowed};

// An enum and no function that is passed in: a clause can say which bytes a case of it allows, and of such a function
// only what it returns.
#[derive(Clone, Copy)]
pub(crate) enum Alphabet {
    // A to Z and 0 to 9.
    LettersAndDigits,
    // These and the hyphen.
    CodeBytes,
}

impl Alphabet {
    pub(crate) fn has(self, byte: u8) -> bool
        ensures { result ≡ allowed self byte }
    {
        match self {
            Alphabet::LettersAndDigits => matches!(byte, b'A'..=b'Z' | b'0'..=b'9'),
            Alphabet::CodeBytes => matches!(byte, b'A'..=b'Z' | b'0'..=b'9' | b'-'),
        }
    }

    pub(crate) fn has_all(self, text: &[u8]) -> bool
        ensures { result ≡ all_allowed self text.now }
    {
        text.iter().all(|byte| self.has(*byte))
    }
}
