// A word of a kind, as a code or a member: its bytes are those of a key.
ghost use Rattle.std.specs.Prelude.{◌≡◌, true, ⊤};
ghost use Rattle.ordered.specs.Keys.{content};

use crate::kind::{CodeKind, Kind, MemberKind};
use ordered::Key;
use std::alloc::AllocError;
use std::marker::PhantomData;

mod made;

pub struct Word<K: Kind> {
    text: Key,
    kind: PhantomData<K>,
    ghost good: { K.good (content text) ≡ true },
}

// Written out, since a derive is refused beside a ghost field that cites a bound.
impl<K: Kind> Copy for Word<K> {}

impl<K: Kind> Clone for Word<K> {
    ghost is_clone = { λ x y. y ≡ x };

    ghost is_infallible = { λ _. ⊤ };

    fn clone(&self) -> Result<Word<K>, AllocError> {
        Ok(*self)
    }
}

pub type Code = Word<CodeKind>;

pub type Member = Word<MemberKind>;

impl Word<CodeKind> {
    // The most bytes that a code has.
    pub const MAX: usize = 20;
}

impl Word<MemberKind> {
    // The bytes that a member has.
    pub const LEN: usize = 4;
}
