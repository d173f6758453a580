// A key from its bytes, the bytes of a key, and its order against a byte string.
ghost use Rattle.std.specs.Prelude.{◌≡◌, ◌+◌, ◌≤◌, false, [], ◌++◌, length};
ghost use Rattle.ordered.specs.Order.{max_key, order};
ghost use Rattle.ordered.specs.Keys.{content};
ghost use Rattle.ordered.specs.Replies.{long, contents, key_reply};

use crate::fault::IndexFault;
use crate::key::Key;
use std::cmp::Ordering;

impl Key {
    // The most bytes that a key has.
    pub const MAX: usize = 24;

    // The key of no bytes.
    pub fn empty() -> Key
        ensures { content result ≡ [] }
    {
        Key {
            bytes: [0; Key::MAX],
            len: 0,
        }
    }

    // The key of the given bytes.
    // Not a TryFrom: `b"A"` is a `&[u8; 1]`, which this takes and a `TryFrom<&[u8]>` does not.
    pub fn new(bytes: &[u8]) -> Result<Key, IndexFault>
        ensures { contents result ≡ key_reply bytes.now }
    {
        Key::joined(bytes, &[])
    }

    // The key of the bytes of `front` and then those of `back`.
    pub fn joined(front: &[u8], back: &[u8]) -> Result<Key, IndexFault>
        ensures { contents result ≡ key_reply (front.now ++ back.now) }
    {
        if too_long(front, back) {
            return Err(IndexFault::KeyTooLong);
        }
        Ok(Key::filled(front, back))
    }

    fn filled(front: &[u8], back: &[u8]) -> Key
        requires { length front.now + length back.now ≤ max_key }
        ensures { content result ≡ front.now ++ back.now }
    {
        let at = front.len();
        let len = at + back.len();
        let mut bytes = [0; Key::MAX];
        bytes[..at].copy_from_slice(front);
        bytes[at..len].copy_from_slice(back);
        Key {
            bytes,
            len: len as u8,
        }
    }

    pub fn as_bytes(&self) -> &[u8]
        ensures bytes { result.now ≡ content self.now }
        ensures short { length result.now ≤ max_key }
    {
        &self.bytes[..self.len as usize]
    }

    // The order of the key and a byte string, which need not be a key: so not an `Ord`.
    #[tactic(auto, using(crate::proofs::Orders::order_lex))]
    pub fn order(&self, bytes: &[u8]) -> Ordering
        ensures { result ≡ order (content self.now) bytes.now }
    {
        self.as_bytes().cmp(&bytes)
    }
}

// Whether two byte strings are too long for one key.
fn too_long(front: &[u8], back: &[u8]) -> bool
    ensures test { result ≡ long (front.now ++ back.now) }
    ensures fits { result ≡ false → length front.now + length back.now ≤ max_key }
{
    front.len() > Key::MAX || back.len() > Key::MAX - front.len()
}
