// Where a key stands among keys in order.
ghost use Rattle.std.specs.Prelude.{◌≡◌, true, map};
ghost use Rattle.ordered.specs.Order.{ascends, Parted};
ghost use Rattle.ordered.specs.Keys.{content};

use ordered::Key;

// How many of the keys are before `key`, by halving.
pub(crate) fn place(keys: &[Key], key: &[u8]) -> usize
    requires { ascends (map content keys.now) ≡ true }
    ensures { Parted key.now (map content keys.now) result }
{
    keys.partition_point(|held| held.order(key).is_lt())
}
