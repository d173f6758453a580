// The search among the keys, and the work of a put and of a run: these have a proof in a file, and the trait's own
// functions are one step over them.
ghost use Rattle.std.specs.Prelude.{◌≡◌, ◌||◌, map, length};
ghost use Rattle.ordered.specs.Keys.{content};
ghost use Rattle.ordered.specs.Pairs.{Spot, Spanned, Stopped, firsts, inserted};
ghost use Rattle.ordered.specs.Replies.{put_reply, run_reply, run_keys, run_values, changed, bound, long, long_end};
ghost use Rattle.sorted.specs.Rows.{places, pairs_of};

use crate::place::place;
use crate::shift;
use crate::sorted_row::SortedRow;
use ordered::{IndexFault, Key};

impl<V: Copy> SortedRow<'_, V> {
    pub(super) fn hold(&mut self, key: &[u8], value: V) -> Result<Option<V>, IndexFault>
        ensures reply { result ≡ put_reply (pairs_of self.old.rows) (places self.old.rows) key.now }
        ensures after { pairs_of self.new.rows ≡ changed result (pairs_of self.old.rows) (inserted (pairs_of self.old.rows) key.now value) }
        ensures limit { places self.new.rows ≡ places self.old.rows }
    {
        let own = Key::new(key)?;
        match self.find(key) {
            Ok(at) => Ok(Some(self.rows.replace(at, value))),
            Err(at) => {
                if self.rows.len == self.rows.keys.len() {
                    return Err(IndexFault::Full);
                }
                self.rows.insert(at, own, value);
                Ok(None)
            }
        }
    }

    pub(super) fn copy_run(
        &self,
        first: &[u8],
        end: Option<&[u8]>,
        keys: &mut [Key],
        values: &mut [V],
    ) -> Result<(usize, bool), IndexFault>
        ensures reply { result ≡ run_reply (pairs_of self.now.rows) first.now (bound end.entry) (length keys.old) (length values.old) }
        ensures keys { map content keys.new ≡ run_keys result (pairs_of self.now.rows) first.now (bound end.entry) (map content keys.old) }
        ensures values { values.new ≡ run_values result (pairs_of self.now.rows) first.now (bound end.entry) values.old }
    {
        if too_long(first, end) {
            return Err(IndexFault::KeyTooLong);
        }
        if keys.len() != values.len() {
            return Err(IndexFault::UnequalRows);
        }
        let (from, to) = self.span(first, end);
        let found = to - from;
        let taken = found.min(keys.len());
        shift::copy(&*self.rows.keys, from, taken, keys);
        shift::copy(&*self.rows.values, from, taken, values);
        Ok((taken, taken < found))
    }

    // `Ok` of the place that holds the key, or else `Err` of the place where it belongs.
    pub(super) fn find(&self, key: &[u8]) -> Result<usize, usize>
        ensures { Spot (pairs_of self.now.rows) key.now result }
    {
        let keys = self.rows.used_keys();
        keys.binary_search_by(|held| held.order(key))
    }

    // How many of the keys are before `end`, if there is one.
    fn stop(&self, end: Option<&[u8]>) -> usize
        ensures { Stopped (bound end.entry) (firsts (pairs_of self.now.rows)) result }
    {
        // A match: of a closure under `map_or` it stays open what it gives.
        match end {
            Some(end) => place(self.rows.used_keys(), end),
            None => self.rows.len,
        }
    }

    // The places of the keys from `first` on and before `end`.
    fn span(&self, first: &[u8], end: Option<&[u8]>) -> (usize, usize)
        ensures { Spanned (pairs_of self.now.rows) first.now (bound end.entry) result.0 result.1 }
    {
        let from = place(self.rows.used_keys(), first);
        let to = self.stop(end);
        (from, to.max(from))
    }
}

fn too_long(first: &[u8], end: Option<&[u8]>) -> bool
    ensures { result ≡ (long first.now || long_end (bound end.entry)) }
{
    first.len() > Key::MAX || end.is_some_and(|end| end.len() > Key::MAX)
}
