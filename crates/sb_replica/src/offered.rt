//! The answer to an offered entry.

/// The answer to an entry. The log takes only the next one.
#[derive(Clone, Copy, Debug, PartialEq, Eq)]
pub enum Offered {
    /// It was the next one, and is now the last of the log.
    Next,
    /// The log has it already.
    Repeat,
    /// The log, of this length, lacks too many entries before it, or never takes its number.
    Gap(u64),
    /// The log lacks an entry before it, so it is held under this number, its own.
    Held(u64),
    /// It is the next one for the log, of this length, but the limit of unfinished entries is
    /// reached.
    Busy(u64),
}
