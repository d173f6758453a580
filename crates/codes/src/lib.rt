// Codes of contracts and of members: words whose bytes always are good ones.
#![tactic(auto)]

mod kind;
mod text;
mod word;

pub use kind::{CodeKind, Kind, MemberKind};
pub use word::{Code, Member, Word};
