// Strings of tokens by their parts: the bytes, and whether the end follows them.
ghost use Rattle.std.specs.Prelude.{◌≡◌, length};
ghost use Rattle.std.specs.List.{slice_get};
ghost use Rattle.ordered.specs.Order.{begins};
ghost use Rattle.names.specs.Names.{coded, spelt};

use crate::token::Token;

#[derive(Clone, Copy, PartialEq, Eq)]
pub(crate) struct Spelling<'a> {
    pub(crate) bytes: &'a [u8],
    pub(crate) ended: bool,
}

impl Spelling<'_> {
    // How many tokens there are.
    pub(crate) fn len(self) -> usize
        ensures { result ≡ length (spelt self.entry) }
    {
        self.bytes.len() + usize::from(self.ended)
    }

    // Whether the other begins with these.
    #[tactic(auto, using(crate::proofs::Spellings::begins_spelled))]
    pub(crate) fn is_prefix_of(self, other: Spelling) -> bool
        ensures { result ≡ begins (spelt self.entry) (spelt other.entry) }
    {
        if self.ended {
            self == other
        } else {
            other.bytes.starts_with(self.bytes)
        }
    }

    // The token behind the first `at` ones.
    pub(crate) fn token(self, at: usize) -> Option<Token>
        ensures { coded result ≡ slice_get (spelt self.entry) at }
    {
        let end = self.ended && at == self.bytes.len();
        let byte = self.bytes.get(at).copied();
        byte.map(Token::Byte).or(end.then_some(Token::End))
    }
}
