//! Amounts of money in whole cents, and their text.
#![tactic(auto)]

mod canonical;
mod cents;
mod fault;
mod laws;
mod printing;
mod reading;

pub use canonical::is_canonical;
pub use cents::{Cents, LIMIT};
pub use fault::MoneyFault;
pub use laws::{limits, totals_are_short};
pub use printing::{print, print_total, write_total};
