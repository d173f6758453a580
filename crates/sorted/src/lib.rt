// A sorted row: an ordered index whose pairs lie in order in one row of keys and one of values.
#![tactic(auto)]

mod opening;
mod place;
mod rows;
mod shift;
mod sorted_row;

pub use opening::{OpenFault, Opening};
pub use sorted_row::SortedRow;
