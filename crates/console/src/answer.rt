// What is answered to a line, as text: one line, or several for a listing.
ghost use Rattle.std.specs.Prelude.{Some};
ghost use Rattle.console.specs.Sayings.{answer_text};

use crate::fault::Fault;
use crate::listing::Listing;
use crate::position_line::PositionLine;
use std::fmt;

#[derive(Clone, Copy)]
pub(crate) enum Answer<'a> {
    // The position that was posted to, and what it came to.
    Posted(PositionLine<'a>),
    // A member's positions.
    Listed(Listing),
    // The number of the line, and why it was refused.
    Refused { line: u64, fault: Fault },
}

impl fmt::Display for Answer<'_> {
    ghost output = { λ a. Some (answer_text a) };

    fn fmt<W: fmt::Write>(&self, f: &mut fmt::Formatter<W>) -> fmt::Result {
        match self {
            Answer::Posted(position) => write!(f, "{position}"),
            Answer::Listed(listing) => write!(f, "{listing}"),
            Answer::Refused { line, fault } => {
                let layer = fault.layer();
                let number = fault.number();
                write!(f, "FAULT {line} {layer} {number}")
            }
        }
    }
}
