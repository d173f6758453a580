// The kinds of words: which byte strings are codes, and which are members.
ghost use Rattle.std.specs.Prelude.{◌≡◌, ℕ, ◌≤◌, Bool, true, List, length};
ghost use Rattle.ordered.specs.Order.{max_key};
ghost use Rattle.codes.specs.Codes.{is_code, is_member};
ghost use Rattle.codes.specs.Fits.{code_fits, member_fits};

use crate::text::Alphabet;
use crate::word::{Code, Member};

pub trait Kind: Copy {
    // Which byte strings are words of the kind.
    ghost good: { List ℕ → Bool };

    fn is_good(text: &[u8]) -> bool
        ensures { result ≡ good text.now };

    // A word of the kind fits in a key.
    ghost fits: { (s : List ℕ) → good s ≡ true → length s ≤ max_key };
}

// The code of a contract: 1 to 20 bytes out of A to Z, 0 to 9 and the hyphen.
#[derive(Clone, Copy)]
pub struct CodeKind;

// A member: four bytes out of A to Z and 0 to 9.
#[derive(Clone, Copy)]
pub struct MemberKind;

// Two tests, since each kind has its own bound and its own bytes.
impl Kind for CodeKind {
    ghost good = { is_code };

    ghost fits = { code_fits };

    fn is_good(text: &[u8]) -> bool {
        !text.is_empty() && text.len() <= Code::MAX && Alphabet::CodeBytes.has_all(text)
    }
}

impl Kind for MemberKind {
    ghost good = { is_member };

    ghost fits = { member_fits };

    fn is_good(text: &[u8]) -> bool {
        text.len() == Member::LEN && Alphabet::LettersAndDigits.has_all(text)
    }
}
