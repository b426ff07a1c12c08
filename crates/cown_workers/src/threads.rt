//! A crew of workers, each in its own thread.

mod bench_crew;
mod in_threads;
mod owner_side;
mod thread_pool;
mod unstarted_crew;
mod worker;

pub use bench_crew::BenchCrew;
pub use in_threads::with_crew;
