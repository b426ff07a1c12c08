//! Columns of integers, read eight values at a time, and the audit of a bank by its columns.
#![tactic(auto)]

mod auditing;
mod books;
mod counting;
mod differences;
mod lanes;
mod laws;
mod ranges;
mod summing;

pub use auditing::{audit, bank_total};
pub use books::Audit;
pub use counting::count_below;
pub use differences::first_difference;
pub use laws::least_difference;
pub use ranges::first_outside;
pub use summing::sum;
