// Numbers in a line: one to ten digits, with no leading zero unless the number is 0.
ghost use Rattle.std.specs.Prelude.{◌≡◌, ◌+◌, ◌-◌, ◌*◌, ◌%◌, ◌^◌, Some, None, cond};
ghost use Rattle.std.specs.Char.{is_ascii_digit};
ghost use Rattle.lines.specs.Decimals.{number, plain, negated, lots_number, number_reply};

use crate::fault::LineFault;

// The most digits that a number has.
const MAX_DIGITS: usize = 10;

// The value with a digit behind it, if the byte is one. No number in a line is so long that it wraps.
fn appended(value: u64, byte: u8) -> Option<u64>
    ensures { result ≡ cond (is_ascii_digit byte) (Some ((value * 10 + (byte - 48)) % 2 ^ 64)) None }
{
    match byte {
        b'0'..=b'9' => Some(value.wrapping_mul(10).wrapping_add(u64::from(byte - b'0'))),
        _ => None,
    }
}

// A number without a sign. By `str::parse` it took twice the time, and `parse` takes a plus and leading zeros too.
fn positive(word: &[u8]) -> Option<i64>
    ensures { result ≡ plain (number word.now) }
{
    match word {
        [b'1'..=b'9', ..] if word.len() <= MAX_DIGITS => {
            word.iter()
                .copied()
                .try_fold(0, appended)
                .map(u64::cast_signed)
        }
        [b'0'] => Some(0),
        _ => None,
    }
}

// The number behind a minus, which stands before any number but 0.
fn negative(digits: &[u8]) -> Option<i64>
    ensures { result ≡ negated (number digits.now) }
{
    match positive(digits)? {
        0 => None,
        value => Some(-value),
    }
}

// A number that may have a minus.
fn signed(word: &[u8]) -> Option<i64>
    ensures { result ≡ lots_number word.now }
{
    match word {
        [b'-', digits @ ..] => negative(digits),
        _ => positive(word),
    }
}

// A number of lots.
pub fn lots(word: &[u8]) -> Result<i64, LineFault>
    ensures { result ≡ number_reply (lots_number word.now) }
{
    signed(word).ok_or(LineFault::NotANumber)
}
