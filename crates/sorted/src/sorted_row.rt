// An ordered index over lent rows.
ghost use Rattle.std.specs.Prelude.{◌≡◌, true};
ghost use Rattle.ordered.specs.Order.{ascends};
ghost use Rattle.ordered.specs.Pairs.{firsts};
ghost use Rattle.sorted.specs.Rows.{pairs_of};

use crate::rows::Rows;

mod calls;
mod served;

#[derive(Drop)]
pub struct SortedRow<'a, V> {
    rows: Rows<'a, V>,
    ghost sorted: { ascends (firsts (pairs_of rows)) ≡ true },
}
