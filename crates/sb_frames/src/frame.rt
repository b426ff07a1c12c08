//! The frames of the wire.

use sb_calls::{Call, WireReply};

/// The greatest length that a frame may state for its body, in bytes.
pub const MAX_BODY: usize = 64;

// The number of bytes that state a body's length.
pub(crate) const LENGTH_BYTES: usize = 2;

/// The greatest length of a frame, in bytes.
pub const MAX_FRAME: usize = LENGTH_BYTES + MAX_BODY;

/// A message between a client, the sequencer and a replica.
#[derive(Clone, Copy, Debug, Default, PartialEq, Eq)]
pub enum Frame {
    /// A client asks for a call, under a request number of its own.
    Ask {
        /// The client's number.
        client: u32,
        /// The client's number of the request.
        request: u32,
        /// The call that is asked for.
        call: Call,
    },
    /// A call of the log, with its number.
    Entry {
        /// The number of the call in the log.
        number: u64,
        /// The call.
        call: Call,
    },
    /// A replica reports how much of the log it has.
    Ack {
        /// The replica's number.
        replica: u8,
        /// The length of its log.
        length: u64,
    },
    /// The reply to a call of the log.
    Answer {
        /// The number of the call in the log.
        number: u64,
        /// The reply.
        reply: WireReply,
    },
    /// The result of a client's ask.
    Outcome {
        /// The client's number.
        client: u32,
        /// The client's number of the request.
        request: u32,
        /// The result.
        outcome: AskOutcome,
    },
    /// Everything sent before must be handled now. It has no fields. It is the default, which fills
    /// an unused place of a list of frames.
    #[default]
    Flush,
    /// A replica reports the checkpoint that it keeps.
    Have {
        /// The replica's number.
        replica: u8,
        /// The length of the log at the checkpoint, or 0 if the replica keeps none.
        length: u64,
    },
}

/// The result of a client's ask.
#[derive(Clone, Copy, Debug, PartialEq, Eq)]
pub enum AskOutcome {
    /// The call ran, with this reply.
    Replied(WireReply),
    /// The request's number belongs to another call.
    Mismatch,
    /// The log takes no more calls.
    LogFull,
}
