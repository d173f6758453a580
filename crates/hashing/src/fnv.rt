// FNV-1a at 32 bits.
ghost use Rattle.std.specs.Prelude.{◌≡◌, fold};
ghost use Rattle.std.proofs.Common.{sym, refl};
ghost use Rattle.hashing.specs.Fnv.{fnv_start, fnv_step, fnv_1a};
ghost use Rattle.std.proofs.lemmas.List.Sums.{fold-append};

use crate::string_hash::StringHash;

pub struct Fnv1a;

const OFFSET: u32 = 2166136261;

const PRIME: u32 = 16777619;

fn step(state: u32, byte: u8) -> u32
    ensures { result ≡ fnv_step state byte }
{
    (state ^ u32::from(byte)).wrapping_mul(PRIME)
}

impl StringHash for Fnv1a {
    type State = u32;

    ghost start = { fnv_start };

    ghost fed = { fold fnv_step };

    ghost numbered = { λ s. s };

    ghost hashed = { fnv_1a };

    ghost nothing = { λ s. refl };

    ghost joined = { λ s a b. sym (fold-append fnv_step s a b) };

    ghost whole = { λ bs. refl };

    fn empty() -> u32 {
        OFFSET
    }

    // As that of CRC-32C, by this hash's own step: the trait has no step, since the end hash goes by none.
    fn feed(state: u32, bytes: &[u8]) -> u32 {
        bytes.iter().copied().fold(state, step)
    }

    fn number(state: u32) -> u32 {
        state
    }
}
