// A word from its bytes, and its bytes again.
ghost use Rattle.std.specs.Prelude.{◌≡◌, true};
ghost use Rattle.codes.specs.Texts.{text, texts, good_text};

use crate::kind::Kind;
use crate::word::Word;
use ordered::Key;
use std::marker::PhantomData;

impl<K: Kind> Word<K> {
    // The word of the given bytes, if they are one. Not a TryFrom, as for a key.
    pub fn new(bytes: &[u8]) -> Option<Word<K>>
        ensures { texts result ≡ good_text K.good bytes.now }
    {
        if !K::is_good(bytes) {
            return None;
        }
        let text = Key::new(bytes).unwrap();
        Some(Word {
            text,
            kind: PhantomData,
        })
    }

    pub fn as_bytes(&self) -> &[u8]
        ensures bytes { result.now ≡ text self.now }
        ensures good { K.good result.now ≡ true }
    {
        self.text.as_bytes()
    }
}
