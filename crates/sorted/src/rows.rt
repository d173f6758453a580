// The lent rows of a sorted row: its pairs lie in the first `len` places.
// Two rows and a count, since the caller lends them and nothing here allocates.
ghost use Rattle.std.specs.Prelude.{◌≡◌, ◌≤◌, length};
ghost use Rattle.sorted.specs.Limits.{max_limit};

use ordered::Key;

mod edits;

#[derive(Drop)]
pub(crate) struct Rows<'a, V> {
    pub(crate) keys: &'a mut [Key],
    pub(crate) values: &'a mut [V],
    pub(crate) len: usize,
    ghost within: { len ≤ length keys.now },
    ghost level: { length values.now ≡ length keys.now },
    ghost some: { 1 ≤ length keys.now },
    ghost limited: { length keys.now ≤ max_limit },
}
