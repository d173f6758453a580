// Rows that passed the check of an opening. Only the check makes this type.
use crate::rows::Rows;

mod check;

pub use check::OpenFault;

#[derive(Drop)]
pub struct Opening<'a, V> {
    pub(crate) rows: Rows<'a, V>,
}
