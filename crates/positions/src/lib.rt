// Members' open positions over any ordered index.
#![tactic(auto)]

mod fault;
mod laws;
mod ledger;
mod positions;

pub use fault::PositionFault;
pub use laws::laws_stand;
pub use positions::Positions;
