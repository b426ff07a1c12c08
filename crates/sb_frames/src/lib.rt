//! Frames of the wire: how they are spelled, and how frames are read from a stream of bytes.
#![tactic(auto)]

mod call;
mod decoding;
mod encoding;
mod entry_op;
mod fault;
mod fields;
mod frame;
mod laws;
mod outcome;
mod stream;
mod writing;

pub use decoding::decode;
pub use encoding::{encode, encode_entry};
pub use entry_op::EntryOp;
pub use fault::{FrameFault, StreamFault};
pub use frame::{AskOutcome, Frame, MAX_BODY, MAX_FRAME};
pub use laws::{frames_of_bytes, limits, one_spelling, spelled_is_decoded};
pub use stream::Stream;
