//! What a replica received from a stream.
use crate::heard::Heard;
use sb_frames::Frame;

/// What a replica received from a stream.
#[derive(Clone, Copy, Debug, PartialEq, Eq)]
pub enum Received {
    /// An entry came, with this answer to it, which isn't [`Heard::Busy`].
    Entry(Heard),
    /// This frame came, which isn't an entry. It was ignored.
    Other(Frame),
    /// The unread bytes are less than a whole frame.
    Short,
    /// As many behaviours are unfinished as the limit allows. No frame is taken until one is
    /// finished.
    Busy,
}
