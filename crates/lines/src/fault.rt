// Why a line is refused as it is read.
ghost use Rattle.std.specs.Prelude.{◌≡◌};
ghost use Rattle.lines.specs.Numbers.{line_number};

#[derive(Clone, Copy)]
pub enum LineFault {
    // More than 80 bytes.
    TooLong = 43,
    // An unknown command, a wrong number of words, or other spacing than one space between words.
    Malformed = 41,
    // A word that should be a number is none.
    NotANumber = 42,
}

impl LineFault {
    // The number that the fault goes by.
    pub fn number(self) -> u8
        ensures { result ≡ line_number self }
    {
        self as u8
    }
}
