//! How workers and their owner wait for each other.

pub(crate) mod back_off;
pub(crate) mod inbox;
pub(crate) mod streak;
pub(crate) mod wake_up;
