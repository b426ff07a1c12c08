//! Customers' names and balances: the opening text, the directory and the columns.
#![tactic(auto)]

mod columns;
mod customer;
mod directory;
mod fault;
mod laws;
mod name;
mod name_bytes;
mod opening;
mod reading;
mod spaces;
mod text;
mod words;

pub use columns::{CUSTOMERS, Columns};
pub use directory::Directory;
pub use fault::{LineFault, OpeningFault};
pub use laws::{limits, rows_by_place};
pub use name::{NAME_BYTES, Name};
pub use opening::Opening;
pub use reading::read_opening;
pub use text::next_line;
pub use words::{Words, WrongWords, word_is};
