// A string fed in two parts, at every place where it can be split.
ghost use Rattle.std.specs.Prelude.{◌≡◌, ◌+◌, ◌≤◌, true, length};

use hashing::{StringHash, hash, hash_joined};

// How many splits of a string have the number of the whole: all of them.
#[tactic(auto, using(crate::proofs::Kept::all_kept))]
pub(crate) fn agreeing_splits<H: StringHash>(bytes: &[u8]) -> usize
    ensures { result ≡ length bytes.now + 1 }
{
    (0..=bytes.len())
        .filter(|at| split_agrees::<H>(bytes, *at))
        .count()
}

// Whether a string that is split at a place has the number of the whole.
fn split_agrees<H: StringHash>(bytes: &[u8], at: usize) -> bool
    requires { at ≤ length bytes.now }
    ensures { result ≡ true }
{
    let (front, back) = bytes.split_at(at);
    hash_joined::<H>(front, back) == hash::<H>(bytes)
}
