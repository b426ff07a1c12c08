//! Node 0: the log that it executes, and who executes it.

mod ask_counts;
mod execution;
mod primary;
mod resolving;
mod save_fault;
mod team;
mod whole_log;

pub use ask_counts::AskCounts;
pub(crate) use execution::PART;
pub use primary::Primary;
pub(crate) use primary::open_boxed;
pub use save_fault::SaveFault;
pub use team::{Duty, WorkerCount, with_team};
pub use whole_log::carry_out_log;
