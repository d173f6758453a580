// Names of entries: strings of tokens, of which the last may be the end.
#![tactic(auto)]

mod laws;
mod name;
mod spelling;
mod token;

pub use laws::laws_stand;
pub use name::Name;
pub use token::Token;
