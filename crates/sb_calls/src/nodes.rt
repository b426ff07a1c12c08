//! How many replicas a bank may have, and how many workers each of them.

/// The greatest number of replicas of a bank.
pub const REPLICAS: usize = 16;

/// The greatest number of workers of a replica.
pub const WORKERS: usize = 16;
