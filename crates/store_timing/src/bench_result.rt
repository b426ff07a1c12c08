//! The result of a measurement.

use std::time::Duration;

/// What is printed of a measurement, and the time of its measured part.
#[derive(Clone, Copy)]
pub struct BenchResult {
    /// The number of calls, or of a checkpoint's bytes or replies.
    pub length: u64,
    /// A sum that depends on everything that was done; for calls, the bank's total.
    pub sum: i64,
    /// The measured time.
    pub time: Duration,
}
