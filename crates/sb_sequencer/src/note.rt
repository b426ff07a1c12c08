//! The notes on what the replicas report to the sequencer.

/// The note on an acknowledgement.
#[derive(Clone, Copy, Debug, PartialEq, Eq)]
pub enum AckNote {
    /// The replica has this length of the log.
    Recorded,
    /// There is no such replica, or the log isn't that long. Nothing changed.
    Odd,
}

/// The note on the length of a replica's checkpoint.
#[derive(Clone, Copy, Debug, PartialEq, Eq)]
pub enum HaveNote {
    /// The replica keeps a checkpoint of this length.
    Recorded,
    /// There is no such replica, or the log isn't that long. Nothing changed.
    Odd,
}

/// The note on the answer to a call.
#[derive(Clone, Copy, Debug, PartialEq, Eq)]
pub enum AnswerNote {
    /// It is the first for its number, and is kept.
    Kept,
    /// It is the same as the one that is kept.
    Repeat,
    /// Another one is kept for its number, and stays.
    Odd,
    /// The log has no such number.
    Unknown,
}
