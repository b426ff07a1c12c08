//! The faults of bytes.

use thiserror::Error;

/// Why no frame is at the front of the bytes: the first fault from the left.
#[derive(Clone, Copy, Debug, PartialEq, Eq, Error)]
pub enum FrameFault {
    /// There are fewer bytes than a whole frame has. With more bytes there may be a frame.
    #[error("short")]
    Short,
    /// The stated length is 0 or above 64, or the fields have another length.
    #[error("bad length")]
    BadLength,
    /// No frame has this tag, or no call has this kind.
    #[error("unknown tag")]
    UnknownTag,
    /// A name doesn't have 1 to 20 bytes, or has a byte other than `a` to `z`, `0` to `9` and `_`.
    #[error("bad name")]
    BadName,
    /// An amount is past the limit of amounts.
    #[error("bad amount")]
    BadAmount,
    /// A reply's code is above 7, its total is past twice the limit of amounts, or there is a total
    /// in a reply that shows none.
    #[error("bad reply")]
    BadReply,
    /// A status is above 2.
    #[error("bad status")]
    BadStatus,
}

/// Why a stream takes no bytes or hands out no frame.
#[derive(Clone, Copy, Debug, PartialEq, Eq, Error)]
pub enum StreamFault {
    /// No frame begins with the unread bytes, whatever follows them. The stream fails from then on.
    #[error("bad frame: {0}")]
    Bad(FrameFault),
    /// An earlier frame was faulty. Nothing changes.
    #[error("failed")]
    Failed,
    /// Memory was refused. Nothing changes.
    #[error("out of memory")]
    OutOfMemory,
}
