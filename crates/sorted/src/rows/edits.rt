// One pair read, added, taken out or given another value.
ghost use Rattle.std.specs.Prelude.{◌≡◌, ℕ, ◌<◌, ◌≤◌, List, map, slice_index_or, slice_set};
ghost use Rattle.std.specs.List.{insert, remove};
ghost use Rattle.ordered.specs.Keys.{content};
ghost use Rattle.ordered.specs.Pairs.{seconds, firsts};
ghost use Rattle.sorted.specs.Rows.{places, pairs_of};

use crate::rows::Rows;
use crate::shift;
use ordered::Key;

impl<V: Copy> Rows<'_, V> {
    // The keys in use.
    #[tactic(auto, using(crate::proofs::Spots::firsts_are))]
    pub(crate) fn used_keys(&self) -> &[Key]
        ensures { map content result.now ≡ firsts (pairs_of self.now) }
    {
        let keys = &*self.keys;
        &keys[..self.len]
    }

    #[tactic(auto, using(crate::proofs::Spots::reads))]
    pub(crate) fn value(&self, at: usize) -> V
        requires { at < self.now.len }
        ensures { result ≡ slice_index_or (seconds (pairs_of self.now)) at result }
    {
        let values = &*self.values;
        values[at]
    }

    // Adds a pair at `at`.
    pub(crate) fn insert(&mut self, at: usize, key: Key, value: V)
        requires room { self.old.len < places self.old }
        requires within { at ≤ self.old.len }
        ensures room { places self.new ≡ places self.old }
        ensures after { pairs_of self.new ≡ insert (pairs_of self.old) at (content key, value) }
    {
        let len = self.len;
        shift::open(self.keys, len, at, key);
        shift::open(self.values, len, at, value);
        self.len = len + 1;
    }

    // Takes out the pair at `at`.
    pub(crate) fn remove(&mut self, at: usize) -> V
        requires { at < self.old.len }
        ensures reply { result ≡ slice_index_or (seconds (pairs_of self.old)) at result }
        ensures room { places self.new ≡ places self.old }
        ensures after { pairs_of self.new ≡ remove (pairs_of self.old) at }
    {
        let len = self.len;
        let value = self.values[at];
        shift::close(self.keys, len, at);
        shift::close(self.values, len, at);
        self.len = len - 1;
        value
    }

    // Sets the value at `at`, and returns the old one.
    pub(crate) fn replace(&mut self, at: usize, value: V) -> V
        requires { at < self.old.len }
        ensures reply { result ≡ slice_index_or (seconds (pairs_of self.old)) at result }
        ensures room { places self.new ≡ places self.old }
        ensures after { (k : List ℕ) → slice_index_or (firsts (pairs_of self.old)) at k ≡ k → pairs_of self.new ≡ slice_set (pairs_of self.old) at (k, value) }
    {
        let old = self.values[at];
        self.values[at] = value;
        old
    }
}
