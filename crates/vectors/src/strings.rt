// Strings to hash.
use std::array;

// The strings whose numbers are printed, each by its name.
pub(crate) const STRINGS: [(&str, &[u8]); 9] = [
    ("empty", b""),
    ("a", b"a"),
    ("foobar", b"foobar"),
    ("123456789", b"123456789"),
    ("32 bytes of 00", &[0; 32]),
    ("32 bytes of ff", &[0xff; 32]),
    ("32 bytes from 00 up", ASCENDING),
    ("32 bytes from 1f down", DESCENDING),
    ("a read command of 48 bytes", READ_COMMAND),
];

const ASCENDING: &[u8; 32] =
    b"\x00\x01\x02\x03\x04\x05\x06\x07\x08\x09\x0a\x0b\x0c\x0d\x0e\x0f\x10\x11\x12\x13\x14\x15\x16\x17\x18\x19\x1a\x1b\x1c\x1d\x1e\x1f";

const DESCENDING: &[u8; 32] =
    b"\x1f\x1e\x1d\x1c\x1b\x1a\x19\x18\x17\x16\x15\x14\x13\x12\x11\x10\x0f\x0e\x0d\x0c\x0b\x0a\x09\x08\x07\x06\x05\x04\x03\x02\x01\x00";

// The read command among the examples of RFC 3720.
const READ_COMMAND: &[u8; 48] =
    b"\x01\xc0\x00\x00\x00\x00\x00\x00\x00\x00\x00\x00\x00\x00\x00\x00\x14\x00\x00\x00\x00\x00\x04\x00\x00\x00\x00\x14\x00\x00\x00\x18\x28\x00\x00\x00\x00\x00\x00\x00\x02\x00\x00\x00\x00\x00\x00\x00";

// 300 bytes with no pattern.
pub(crate) fn sample() -> [u8; 300] {
    let mut state = 1u32;
    array::from_fn(|_| {
        state = state.wrapping_mul(1664525).wrapping_add(1013904223);
        (state >> 24) as u8
    })
}
