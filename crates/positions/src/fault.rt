// Why the positions refuse a call.
ghost use Rattle.std.specs.Prelude.{◌≡◌};
ghost use Rattle.positions.specs.declared.fault.PositionFault.TheVariants.{Index};
ghost use Rattle.positions.specs.Numbers.{position_number};

use ordered::IndexFault;

#[derive(Clone, Copy, PartialEq, Eq, Debug)]
pub enum PositionFault {
    // Not four bytes out of A to Z and 0 to 9.
    BadMember,
    // Not 1 to 20 bytes out of A to Z, 0 to 9 and the hyphen.
    BadCode,
    // Lots of 0, or more than 10^9 of them either way.
    BadLots,
    // The position would have more than 10^12 lots either way.
    BeyondBounds,
    // The index to open over holds something.
    NotEmpty,
    // The index refused.
    Index(IndexFault),
}

impl PositionFault {
    // The number that the fault goes by: the index's own where the index refused.
    // By a match, since a case that holds a fault has no number of its own.
    pub fn number(self) -> u8
        ensures { result ≡ position_number self }
    {
        match self {
            PositionFault::BadMember => 31,
            PositionFault::BadCode => 21,
            PositionFault::BadLots => 32,
            PositionFault::BeyondBounds => 33,
            PositionFault::NotEmpty => 24,
            PositionFault::Index(fault) => fault.number(),
        }
    }
}

// Written out: a derived `From` has no contract.
impl From<IndexFault> for PositionFault {
    ghost from_gives = { λ f r. r ≡ Index f };

    fn from(refusal: IndexFault) -> PositionFault {
        PositionFault::Index(refusal)
    }
}
