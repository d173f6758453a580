// Marks of tokens: set, cleared and asked for, and the greatest below a byte.
ghost use Rattle.std.specs.Prelude.{◌≡◌, ℕ, suc, true, false, if◌then◌else◌, MatchBool, nat_eq};
ghost use Rattle.names.specs.Names.{code, coded};
ghost use Rattle.marks.specs.Marked.{marked, byte_marked};
ghost use Rattle.marks.specs.Search.{Found};

use crate::bits::with_bit;
use crate::row::{any_bit, last_below};
use names::Token;

// The catalogue lays down four words of 64 bits, and the mark of the end beside them.
#[derive(Clone, Copy)]
pub struct Marks {
    words: [u64; 4],
    end: bool,
}

impl Marks {
    // No mark at all.
    pub fn new() -> Marks
        ensures { (t : ℕ) → marked result t ≡ false }
    {
        Marks {
            words: [0; 4],
            end: false,
        }
    }

    pub fn is_marked(&self, token: Token) -> bool
        ensures { result ≡ marked self.now (code token) }
    {
        match token {
            Token::End => self.end,
            Token::Byte(byte) => self.has_byte(byte),
        }
    }

    // This and `unmark` are `set` by two names, so that no call has to read a flag.
    pub fn mark(&mut self, token: Token)
        ensures { (t : ℕ) → marked self.new t ≡ (if nat_eq t (code token) then true else marked self.old t) }
    {
        self.set(token, true);
    }

    pub fn unmark(&mut self, token: Token)
        ensures { (t : ℕ) → marked self.new t ≡ (if nat_eq t (code token) then false else marked self.old t) }
    {
        self.set(token, false);
    }

    // Whether any token is marked.
    #[tactic(auto, using(crate::proofs::Tokens::any_marked))]
    pub fn any(&self) -> bool
        ensures { MatchBool result ((t : ℕ) × (marked self.now t ≡ true)) ((t : ℕ) → marked self.now t ≡ false) }
    {
        self.end || any_bit(&self.words)
    }

    // The greatest marked byte below a byte.
    pub fn greatest_below(&self, byte: u8) -> Option<u8>
        ensures { Found (byte_marked self.now) byte result }
    {
        last_below(&self.words, byte)
    }

    // The greatest marked token below a byte.
    pub fn lower(&self, byte: u8) -> Option<Token>
        ensures { Found (marked self.now) (suc byte) (coded result) }
    {
        let found = last_below(&self.words, byte);
        found.map(Token::Byte).or(self.end.then_some(Token::End))
    }

    fn has_byte(&self, byte: u8) -> bool
        ensures { result ≡ byte_marked self.now byte }
    {
        (self.words[(byte / 64) as usize] >> (byte % 64)) & 1 == 1
    }

    fn set(&mut self, token: Token, on: bool)
        ensures { (t : ℕ) → marked self.new t ≡ (if nat_eq t (code token) then on else marked self.old t) }
    {
        match token {
            Token::End => self.end = on,
            Token::Byte(byte) => {
                let word = &mut self.words[(byte / 64) as usize];
                *word = with_bit(*word, byte % 64, on);
            }
        }
    }
}
