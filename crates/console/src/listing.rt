// A member's positions, as many as are listed.
ghost use Rattle.std.specs.Prelude.{◌≡◌, ◌≤◌, length};
ghost use Rattle.console.specs.Answers.{max_listed};

use ordered::Key;

mod listed;

// The most positions that are listed: an index of this limit is listed whole.
pub const LIMIT: usize = 16;

// Two rows and a count, as a run of the index writes them.
#[derive(Clone, Copy)]
pub(crate) struct Listing {
    keys: [Key; LIMIT],
    lots: [i64; LIMIT],
    count: usize,
    ghost wide: { length keys ≡ max_listed },
    ghost even: { length lots ≡ max_listed },
    ghost short: { count ≤ max_listed },
}
