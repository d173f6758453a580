// An ordered index of byte-string keys: its keys, its faults, its calls and what they mean.
#![tactic(auto)]

mod fault;
mod index;
mod key;
mod laws;

pub use fault::IndexFault;
pub use index::OrderedIndex;
pub use key::Key;
pub use laws::laws_stand;
