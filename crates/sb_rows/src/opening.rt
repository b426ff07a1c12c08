//! What an opening text says.
ghost use Rattle.sb_rows.specs.Rows.{SameCustomers};

use crate::columns::Columns;
use crate::directory::Directory;

/// What an opening text says.
#[derive(Drop)]
pub struct Opening {
    /// The customers' names.
    pub directory: Directory,
    /// Their balances.
    pub columns: Columns,
    /// The number of bytes that the opening takes. The text after the line `begin` starts there.
    pub consumed: usize,
    ghost same_customers: { SameCustomers directory columns },
}
