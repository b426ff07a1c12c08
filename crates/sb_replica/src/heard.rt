//! A replica's answer to bytes from the network.

/// What a replica did with a frame. Only an entry that is accepted or held changes anything.
#[derive(Clone, Copy, Debug, PartialEq, Eq)]
pub enum Heard {
    /// The entry was the next one, with this number. It is the last of the log now.
    Accepted(u64),
    /// The log already has an entry with this number.
    Repeat(u64),
    /// The log, of this length, lacks too many entries before this one, or can't take its number.
    Gap(u64),
    /// The log lacks an entry before this one, so it is held under this number, its own.
    Held(u64),
    /// It is the next entry for the log, of this length, but as many behaviours are unfinished as
    /// the limit allows.
    Busy(u64),
    /// A frame that isn't an entry.
    Ignored,
}
