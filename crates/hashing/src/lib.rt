// Hashes of byte strings that are fed part by part: a trait, and three hashes.
#![tactic(auto)]

mod crc32c;
mod end;
mod fnv;
mod laws;
mod string_hash;

pub use crc32c::Crc32c;
pub use end::{End, Tail};
pub use fnv::Fnv1a;
pub use laws::laws_stand;
pub use string_hash::{StringHash, hash, hash_joined};
