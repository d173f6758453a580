// The marks of an entry's children: one for each byte, in four 64-bit words, and one for the end beside them.
#![tactic(auto)]

mod bits;
mod laws;
mod marks;
mod row;

pub use laws::laws_stand;
pub use marks::Marks;
