// Positions listed, and their lines.
ghost use Rattle.std.specs.Prelude.{◌≡◌, Some};
ghost use Rattle.console.specs.Texts.{listing_text};
ghost use Rattle.console.specs.Answers.{listing_reply};
ghost use Rattle.console.specs.Listings.{listing_pairs, listings};

use crate::listing::{LIMIT, Listing};
use crate::position_line::PositionLine;
use ordered::{Key, OrderedIndex};
use positions::{PositionFault, Positions};
use std::fmt;

impl Listing {
    // The positions of a member.
    pub(crate) fn of<I: OrderedIndex<i64> + Drop>(
        positions: &Positions<I>,
        member: &[u8],
    ) -> Result<Listing, PositionFault>
        ensures { listings result ≡ listing_reply (I.pairs positions.now) member.now }
    {
        let mut keys = [Key::empty(); LIMIT];
        let mut lots = [0; LIMIT];
        let (count, _) = positions.list(member, &mut keys, &mut lots)?;
        Ok(Listing { keys, lots, count })
    }
}

impl fmt::Display for Listing {
    ghost output = { λ l. Some (listing_text (listing_pairs l)) };

    fn fmt<W: fmt::Write>(&self, f: &mut fmt::Formatter<W>) -> fmt::Result {
        let count = self.count;
        for (key, lots) in self.keys[..count].iter().zip(&self.lots[..count]) {
            let line = PositionLine::of(key, *lots);
            writeln!(f, "{line}")?;
        }
        write!(f, "END {count}")
    }
}
