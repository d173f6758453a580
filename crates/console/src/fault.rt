// Why a line is refused, by the layer that refused it.
ghost use Rattle.std.specs.Prelude.{◌≡◌, Some};
ghost use Rattle.console.specs.declared.fault.Fault.TheVariants.{Line as line, Positions as positions};
ghost use Rattle.positions.specs.declared.fault.PositionFault.TheVariants.{Index};
ghost use Rattle.console.specs.Numbers.{fault_number, layer_of};
ghost use Rattle.console.specs.Texts.{layer_text};

use lines::LineFault;
use ordered::IndexFault;
use positions::PositionFault;
use std::fmt;

#[derive(Clone, Copy)]
pub enum Layer {
    Line,
    Positions,
    Index,
}

impl fmt::Display for Layer {
    ghost output = { λ l. Some (layer_text l) };

    fn fmt<W: fmt::Write>(&self, f: &mut fmt::Formatter<W>) -> fmt::Result {
        match self {
            Layer::Line => f.write_str("LINE"),
            Layer::Positions => f.write_str("POS"),
            Layer::Index => f.write_str("INDEX"),
        }
    }
}

// A line's own fault, or that of the layer below, whole.
#[derive(Clone, Copy)]
pub enum Fault {
    Line(LineFault),
    Positions(PositionFault),
}

impl Fault {
    // The layer that refused: an index that stands under the positions is a layer of its own.
    pub fn layer(self) -> Layer
        ensures { result ≡ layer_of self }
    {
        match self {
            Fault::Line(_) => Layer::Line,
            Fault::Positions(PositionFault::Index(_)) => Layer::Index,
            Fault::Positions(_) => Layer::Positions,
        }
    }

    // The number that the fault goes by, in whichever layer it arose.
    // By a match, since a case that holds a fault has no number of its own.
    pub fn number(self) -> u8
        ensures { result ≡ fault_number self }
    {
        match self {
            Fault::Line(fault) => fault.number(),
            Fault::Positions(fault) => fault.number(),
        }
    }
}

// The three are written out: a derived `From` has no contract.
impl From<LineFault> for Fault {
    ghost from_gives = { λ f r. r ≡ line f };

    fn from(refusal: LineFault) -> Fault {
        Fault::Line(refusal)
    }
}

impl From<PositionFault> for Fault {
    ghost from_gives = { λ f r. r ≡ positions f };

    fn from(refusal: PositionFault) -> Fault {
        Fault::Positions(refusal)
    }
}

// The index stands under the positions.
impl From<IndexFault> for Fault {
    ghost from_gives = { λ f r. r ≡ positions (Index f) };

    fn from(refusal: IndexFault) -> Fault {
        Fault::Positions(PositionFault::Index(refusal))
    }
}
