// What a string hash is, and the hash number of a whole string.
ghost use Rattle.std.specs.Prelude.{◌≡◌, ℕ, List, [], ◌++◌};

// A hash with a state, which takes a string in any parts and has a 32-bit number.
pub trait StringHash {
    type State: Copy;

    // The state of the empty string, a state after further bytes, and the number of a state.
    ghost start: { Self.State };

    ghost fed: { Self.State → List ℕ → Self.State };

    ghost numbered: { Self.State → ℕ };

    // The number of a whole string, as the hash is published.
    ghost hashed: { List ℕ → ℕ };

    fn empty() -> Self::State
        ensures { result ≡ start };

    fn feed(state: Self::State, bytes: &[u8]) -> Self::State
        ensures { result ≡ fed state bytes.now };

    fn number(state: Self::State) -> u32
        ensures { result ≡ numbered state };

    ghost nothing: { (s : Self.State) → fed s [] ≡ s };

    ghost joined: { (s : Self.State) (a b : List ℕ) → fed (fed s a) b ≡ fed s (a ++ b) };

    ghost whole: { (bs : List ℕ) → numbered (fed start bs) ≡ hashed bs };
}

// The number of a string. By `hash_joined` an empty string would be fed too.
pub fn hash<H: StringHash>(bytes: &[u8]) -> u32
    ensures { result ≡ H.StringHash.hashed bytes.now }
{
    H::number(H::feed(H::empty(), bytes))
}

// The number of two strings, one behind the other, that are fed in turn.
pub fn hash_joined<H: StringHash>(front: &[u8], back: &[u8]) -> u32
    ensures { result ≡ H.StringHash.hashed (front.now ++ back.now) }
{
    H::number(H::feed(H::feed(H::empty(), front), back))
}
