// A sorted row is made over rows that passed the check, and serves the calls of an ordered index.
ghost use Rattle.std.specs.Prelude.{◌≡◌, []};
ghost use Rattle.sorted.specs.Rows.{places, pairs_of, rows_fit};

use crate::opening::Opening;
use crate::sorted_row::SortedRow;
use ordered::{IndexFault, Key, OrderedIndex};

impl<'a, V: Copy> SortedRow<'a, V> {
    // The making: no pairs, and the rows' length as limit.
    pub fn new(opening: Opening<'a, V>) -> SortedRow<'a, V>
        ensures pairs { pairs_of result.rows ≡ [] }
        ensures limit { places result.rows ≡ places opening.entry.rows }
    {
        let Opening { mut rows } = opening;
        rows.len = 0;
        SortedRow { rows }
    }
}

impl<V: Copy> OrderedIndex<V> for SortedRow<'_, V> {
    ghost pairs = { λ s. pairs_of s.rows };

    ghost limit = { λ s. places s.rows };

    ghost ascending = { λ s. s.sorted };

    ghost fits = { λ s. rows_fit s.rows };

    #[tactic(auto, using(crate::proofs::Spots::pairs_long))]
    fn get(&self, key: &[u8]) -> Result<Option<V>, IndexFault> {
        if key.len() > Key::MAX {
            return Err(IndexFault::KeyTooLong);
        }
        // A match: of a closure under `map` it stays open that its place is in use.
        match self.find(key) {
            Ok(at) => Ok(Some(self.rows.value(at))),
            Err(_) => Ok(None),
        }
    }

    fn put(&mut self, key: &[u8], value: V) -> Result<Option<V>, IndexFault> {
        self.hold(key, value)
    }

    #[tactic(auto, using(crate::proofs::Spots::pairs_long, crate::proofs::Spots::still_erased))]
    fn drop(&mut self, key: &[u8]) -> Result<V, IndexFault> {
        if key.len() > Key::MAX {
            return Err(IndexFault::KeyTooLong);
        }
        // `Err` has the place where the key belongs, which is no error here.
        let Ok(at) = self.find(key) else {
            return Err(IndexFault::NotHeld);
        };
        Ok(self.rows.remove(at))
    }

    #[tactic(auto, using(crate::proofs::Spots::pairs_long))]
    fn count(&self) -> usize {
        self.rows.len
    }

    fn run(
        &self,
        first: &[u8],
        end: Option<&[u8]>,
        keys: &mut [Key],
        values: &mut [V],
    ) -> Result<(usize, bool), IndexFault> {
        self.copy_run(first, end, keys, values)
    }
}
