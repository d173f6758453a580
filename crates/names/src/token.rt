// A token: a byte of a key, or the end, which is in no key and lower than every byte.
// No `Option<u8>`: the end is a token of its own, and where there is no token an `Option<Token>` says so.
#[derive(Clone, Copy, PartialEq, Eq, Debug)]
pub enum Token {
    End,
    Byte(u8),
}
