// The bits of a 64-bit word.
ghost use Rattle.std.specs.Prelude.{◌≡◌, ℕ, ◌%◌, ◌^◌, ◌<◌, if◌then◌else◌, nat_eq};
ghost use Rattle.marks.specs.Bits.{has};

// The lowest `count` bits of a word.
#[tactic(auto, using(crate::proofs::Words::lowest))]
pub(crate) fn low_bits(word: u64, count: u8) -> u64
    ensures { result ≡ word % 2 ^ count }
{
    if count < 64 {
        word & ((1 << count) - 1)
    } else {
        word
    }
}

// A word with one bit set or cleared.
#[tactic(auto, using(crate::proofs::Words::one_bit))]
pub(crate) fn with_bit(word: u64, place: u8, on: bool) -> u64
    requires { place < 64 }
    ensures { (i : ℕ) → i < 64 → has result i ≡ (if nat_eq i place then on else has word i) }
{
    let bit = 1 << place;
    if on { word | bit } else { word & !bit }
}
