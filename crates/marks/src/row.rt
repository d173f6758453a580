// Rows of words, of which each bit marks a byte: bit b % 64 of word b / 64 marks b.
ghost use Rattle.std.specs.Prelude.{◌≡◌, ℕ, true, false, MatchBool, length};
ghost use Rattle.marks.specs.Bits.{clip, marks_of, used};
ghost use Rattle.marks.specs.Search.{Found};

use crate::bits::low_bits;
use std::array;

// Whether any byte is marked. It reads each word: a comparison of rows would not show that a word fits 64 bits.
pub(crate) fn any_bit(row: &[u64]) -> bool
    ensures { MatchBool result ((b : ℕ) × (marks_of row.now b ≡ true)) ((b : ℕ) → marks_of row.now b ≡ false) }
{
    row.iter().any(|word| *word != 0)
}

// The greatest marked byte below a byte: the work of `greatest_below`, whose own proof is one step.
pub(crate) fn last_below(row: &[u64; 4], byte: u8) -> Option<u8>
    ensures { Found (marks_of row.now) byte result }
{
    let front = clipped(row, byte);
    let at = last_used(&front)?;
    Some((64 * at) as u8 + front[at].ilog2() as u8)
}

// The words with only the marks below a byte.
fn clipped(row: &[u64; 4], byte: u8) -> [u64; 4]
    ensures { result ≡ clip byte row.now }
{
    array::from_fn(|i| low_bits(row[i], byte.saturating_sub(64 * i as u8)))
}

// The last word that is not 0.
fn last_used(row: &[u64]) -> Option<usize>
    ensures { Found (used row.now) (length row.now) result }
{
    row.iter().rposition(|word| *word != 0)
}
