// The check of an opening, which alone can refuse.
ghost use Rattle.std.specs.Prelude.{◌≡◌, length};
ghost use Rattle.sorted.specs.Numbers.{open_number};
ghost use Rattle.sorted.specs.Opening.{opening, limits};

use crate::opening::Opening;
use crate::rows::Rows;
use ordered::Key;

// Why rows are refused as a sorted row's.
#[derive(Clone, Copy, PartialEq, Eq, Debug)]
pub enum OpenFault {
    // There is no place, there are over 4,096, or the rows differ in length.
    BadRows = 1,
}

impl OpenFault {
    // The number that the fault goes by.
    pub fn number(self) -> u8
        ensures { result ≡ open_number self }
    {
        self as u8
    }
}

// The most pairs that an index holds.
const MAX_LIMIT: usize = 4096;

impl<'a, V: Copy> Opening<'a, V> {
    pub fn check(keys: &'a mut [Key], values: &'a mut [V]) -> Result<Opening<'a, V>, OpenFault>
        ensures { limits result ≡ opening (length keys.old) (length values.old) }
    {
        if keys.is_empty() || keys.len() > MAX_LIMIT || keys.len() != values.len() {
            return Err(OpenFault::BadRows);
        }
        Ok(Opening {
            rows: Rows {
                keys,
                values,
                len: 0,
            },
        })
    }
}
