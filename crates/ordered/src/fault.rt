// Why an ordered index refuses a call.
ghost use Rattle.std.specs.Prelude.{◌≡◌};
ghost use Rattle.ordered.specs.Numbers.{index_number};

#[derive(Clone, Copy, PartialEq, Eq, Debug)]
pub enum IndexFault {
    // A key of more than 24 bytes.
    KeyTooLong = 11,
    // A new key, where as many pairs are held as the limit allows.
    Full = 12,
    // The key to drop is not held.
    NotHeld = 13,
    // The rows of a run differ in length.
    UnequalRows = 14,
}

impl IndexFault {
    // The number that the fault goes by.
    pub fn number(self) -> u8
        ensures { result ≡ index_number self }
    {
        self as u8
    }
}
