// The end hash: the length modulo 256 and the last byte.
ghost use Rattle.std.specs.Prelude.{◌≡◌};
ghost use Rattle.hashing.specs.Ends.{nothing_fed, tail_of, tail_number, end_hash};
ghost use Rattle.hashing.specs.Tails.{tail_append, whole_tail};
ghost use Rattle.std.proofs.Common.{refl};

use crate::string_hash::StringHash;

pub struct End;

// What the end hash knows of a string.
#[derive(Clone, Copy)]
pub struct Tail {
    count: u8,
    last: u8,
}

impl Tail {
    // The state after further bytes, by the two cases of `tail_of`.
    fn followed(self, bytes: &[u8]) -> Tail
        ensures { result ≡ tail_of self bytes.now }
    {
        match bytes {
            [] => self,
            [.., last] => Tail {
                count: self.count.wrapping_add((bytes.len() % 256) as u8),
                last: *last,
            },
        }
    }
}

impl StringHash for End {
    type State = Tail;

    ghost start = { nothing_fed };

    ghost fed = { tail_of };

    ghost numbered = { tail_number };

    ghost hashed = { end_hash };

    ghost nothing = { λ t. refl };

    ghost joined = { tail_append };

    ghost whole = { whole_tail };

    fn empty() -> Tail {
        Tail { count: 0, last: 0 }
    }

    fn feed(state: Tail, bytes: &[u8]) -> Tail {
        state.followed(bytes)
    }

    fn number(state: Tail) -> u32 {
        256 * u32::from(state.count) + u32::from(state.last)
    }
}
