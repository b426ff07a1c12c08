//! A bench: the owner of a board lays jobs out on it, and workers pick them, each job once, in the
//! order in which it was laid out.
#![tactic(auto)]

mod bench;
mod draining;
mod laws;
mod pass_history;
mod passes;
mod rule;
mod work;
mod worker_passes;

pub use bench::{BENCH_CAPACITY, Bench};
pub use laws::limits;
pub use passes::{OwnerPass, WorkerPass};
pub use sb_calls::WORKERS;
pub use work::Work;
