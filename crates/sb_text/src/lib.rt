//! What the programs share of their texts: reading a whole input, listing rows, writing a whole
//! output.
#![tactic(auto)]

mod input;
mod laws;
mod lines;
mod listing;
mod output;

pub use input::{READS, ReadFault, read_all, read_with_room};
pub use laws::limits;
pub use lines::{push_field, push_total};
pub use listing::{list_customers, list_rows};
pub use output::write_whole;
