// A name: 0 to 24 bytes, and whether the end follows them.
ghost use Rattle.std.specs.Prelude.{◌≡◌, ◌≤◌, [], ◌∷◌, ◌++◌, length, take, Decides};
ghost use Rattle.std.specs.List.{slice_get};
ghost use Rattle.ordered.specs.Order.{max_key, begins};
ghost use Rattle.ordered.specs.Keys.{content};
ghost use Rattle.names.specs.Tokens.{spelled, good_name};
ghost use Rattle.names.specs.Names.{start_of, tokens_of, code, coded, named, same_tokens};
ghost use Rattle.std.proofs.lemmas.Cmp.{on_equiv, nat_list_eq_equiv};
ghost use Rattle.std.specs.Cmp.{partial_equiv_from_equiv};

use crate::spelling::Spelling;
use crate::token::Token;
use ordered::Key;

// The bytes are a key's, so that those behind its length are 0 and equal names are equal values.
// The flag is a part of the name: it does not say whether the bytes count.
#[derive(Clone, Copy)]
pub struct Name {
    start: Key,
    ended: bool,
}

impl Name {
    // The name of no tokens.
    pub fn empty() -> Name
        ensures { tokens_of result ≡ [] }
    {
        Name {
            start: Key::empty(),
            ended: false,
        }
    }

    pub fn new(start: Key, ended: bool) -> Name
        ensures { tokens_of result ≡ spelled (content start) ended }
    {
        Name { start, ended }
    }

    // The bytes before the end.
    pub fn start(&self) -> &[u8]
        ensures bytes { result.now ≡ start_of self.now }
        ensures short { length result.now ≤ max_key }
    {
        self.start.as_bytes()
    }

    // Whether the end follows them.
    pub fn is_ended(&self) -> bool
        ensures { result ≡ self.now.ended }
    {
        self.ended
    }

    // The number of tokens.
    pub fn len(&self) -> usize
        ensures { result ≡ length (tokens_of self.now) }
    {
        self.spelling().len()
    }

    // Whether this is the name of these bytes, with the end or without it.
    #[tactic(auto, using(crate::proofs::Spellings::spelling_is))]
    pub fn is(&self, bytes: &[u8], ended: bool) -> bool
        ensures { Decides result (tokens_of self.now ≡ spelled bytes.now ended) }
    {
        self.spelling() == Spelling { bytes, ended }
    }

    pub fn is_prefix_of(&self, other: &Name) -> bool
        ensures { result ≡ begins (tokens_of self.now) (tokens_of other.now) }
    {
        self.spelling().is_prefix_of(other.spelling())
    }

    // The token behind the first `at` ones.
    pub fn token(&self, at: usize) -> Option<Token>
        ensures { coded result ≡ slice_get (tokens_of self.now) at }
    {
        self.spelling().token(at)
    }

    // The first `count` tokens, or all of them where there are fewer.
    #[tactic(auto, using(crate::proofs::Spellings::first_tokens))]
    pub fn prefix(&self, count: usize) -> Name
        ensures { tokens_of result ≡ take count (tokens_of self.now) }
    {
        self.start()
            .get(..count)
            .map_or(*self, |bytes| Name::new(Key::new(bytes).unwrap(), false))
    }

    // The name with one token more, if there is a name of those tokens.
    #[tactic(auto, using(crate::proofs::Spellings::one_more))]
    pub fn child(&self, token: Token) -> Option<Name>
        ensures { named result ≡ good_name (tokens_of self.now ++ code token ∷ []) }
    {
        if self.ended {
            return None;
        }
        match token {
            Token::End => Some(Name::new(self.start, true)),
            Token::Byte(byte) => Key::joined(self.start(), &[byte])
                .ok()
                .map(|start| Name::new(start, false)),
        }
    }

    fn spelling(&self) -> Spelling<'_>
        ensures bytes { result.bytes.now ≡ start_of self.now }
        ensures ended { result.ended ≡ self.now.ended }
    {
        Spelling {
            bytes: self.start(),
            ended: self.ended,
        }
    }
}

// By hand, since it promises equal tokens: derived, it would promise equal rows of bytes, and a key has no `==`.
impl PartialEq for Name {
    ghost eq = { same_tokens };

    ghost laws = { partial_equiv_from_equiv (on_equiv tokens_of nat_list_eq_equiv) };

    #[tactic(auto, using(crate::proofs::Spellings::same_parts))]
    fn eq(&self, other: &Name) -> bool {
        self.spelling() == other.spelling()
    }
}

impl Eq for Name {
    ghost laws = { on_equiv tokens_of nat_list_eq_equiv };
}
