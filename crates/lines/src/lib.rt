// Lines of input: bytes into lines, lines into commands, words into numbers.
#![tactic(auto)]

mod command;
mod fault;
mod held;
mod laws;
mod line;
mod number;
mod words;

pub use command::Command;
pub use fault::LineFault;
pub use laws::laws_stand;
pub use line::LineBuffer;
pub use number::lots;
