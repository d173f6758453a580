// An ordered index: what it means, and what its calls reply and do to that meaning.
ghost use Rattle.std.specs.Prelude.{◌≡◌, ℕ, ◌≤◌, true, map, length};
ghost use Rattle.ordered.specs.Order.{ascends};
ghost use Rattle.ordered.specs.Keys.{content};
ghost use Rattle.ordered.specs.Pairs.{Pairs, firsts, inserted, erased};
ghost use Rattle.ordered.specs.Replies.{get_reply, put_reply, drop_reply, run_reply, run_keys, run_values, changed, bound};

use crate::fault::IndexFault;
use crate::key::Key;

pub trait OrderedIndex<V: Copy> {
    // The pairs that are held, in ascending order of their keys.
    ghost pairs: { Self → Pairs V };

    // The most pairs that may be held: a number of the value and not of its type, so each change says that it stays.
    ghost limit: { Self → ℕ };

    // Proofs that each `impl` gives: the keys ascend strictly, and there are at most `limit` pairs. They stand above the
    // functions, so that clauses can name them: below, as laws, they could be used in proofs alone.
    ghost ascending: { (s : Self) → ascends (firsts (pairs s)) ≡ true };

    ghost fits: { (s : Self) → length (pairs s) ≤ limit s };

    // The key's value, if it is held.
    fn get(&self, key: &[u8]) -> Result<Option<V>, IndexFault>
        ensures { result ≡ get_reply (pairs self.now) key.now };

    // Holds the value under the key, and replies with the value that it replaced.
    fn put(&mut self, key: &[u8], value: V) -> Result<Option<V>, IndexFault>
        ensures reply { result ≡ put_reply (pairs self.old) (limit self.old) key.now }
        ensures after { pairs self.new ≡ changed result (pairs self.old) (inserted (pairs self.old) key.now value) }
        ensures limit { limit self.new ≡ limit self.old };

    // Lets the key's pair go, and replies with its value.
    fn drop(&mut self, key: &[u8]) -> Result<V, IndexFault>
        ensures reply { result ≡ drop_reply (pairs self.old) key.now }
        ensures after { pairs self.new ≡ changed result (pairs self.old) (erased (pairs self.old) key.now) }
        ensures limit { limit self.new ≡ limit self.old };

    // How many pairs are held.
    fn count(&self) -> usize
        ensures { result ≡ length (pairs self.now) };

    // Writes the pairs from `first` on and before `end` into the rows, as many as they take:
    // how many were written, and whether more remain. A pair, since both are always told.
    // Two bounds and two rows, and a struct of neither: each call would have to make it, and rows of unequal length are
    // refused and not ruled out by a type.
    fn run(
        &self,
        first: &[u8],
        end: Option<&[u8]>,
        keys: &mut [Key],
        values: &mut [V],
    ) -> Result<(usize, bool), IndexFault>
        ensures reply { result ≡ run_reply (pairs self.now) first.now (bound end.entry) (length keys.old) (length values.old) }
        ensures keys { map content keys.new ≡ run_keys result (pairs self.now) first.now (bound end.entry) (map content keys.old) }
        ensures values { values.new ≡ run_values result (pairs self.now) first.now (bound end.entry) values.old };
}
