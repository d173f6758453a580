// The console: what is answered to lines of input, as text.
#![tactic(auto)]

mod answer;
mod console;
mod fault;
mod laws;
mod listing;
mod position_line;
mod session;
mod text;

pub use fault::{Fault, Layer};
pub use laws::laws_stand;
pub use listing::LIMIT;
pub use session::Session;
