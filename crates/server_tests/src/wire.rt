//! Frames as bytes on the wire, and sessions of them.
use crate::bank::{expect, expect_bytes, joined};
use bank_server::{Primary, SessionFault, serve_session};
use cown_workers::InlineCrew;
use sb_ask_log::Keeper;
use sb_checkpoint::CheckpointStore;
use std::alloc::Global;
use std::io::Read;
use std::ops::Range;
use std::process::Abort;

/// Client 7 asks for alice's balance by its request 1.
pub(crate) const BALANCE: &[u8] = b"\x00\x10\x01\x00\x00\x00\x07\x00\x00\x00\x01\x01\x05alice";

/// It deposits 5.00 for bob by its request 2.
pub(crate) const DEPOSIT: &[u8] =
    b"\x00\x16\x01\x00\x00\x00\x07\x00\x00\x00\x02\x02\x03bob\x00\x00\x00\x00\x00\x00\x01\xf4";

/// It deposits 1.00 for alice by its request 1.
pub(crate) const OTHER: &[u8] =
    b"\x00\x18\x01\x00\x00\x00\x07\x00\x00\x00\x01\x02\x05alice\x00\x00\x00\x00\x00\x00\x00\x64";

pub(crate) const FLUSH: &[u8] = b"\x00\x01\x06";

/// The log's first entry, which no client sends.
pub(crate) const ENTRY: &[u8] = b"\x00\x10\x02\x00\x00\x00\x00\x00\x00\x00\x01\x01\x05alice";

/// A report that replica 1 keeps a checkpoint of length 2, which no client sends.
pub(crate) const HAVE: &[u8] = b"\x00\x0a\x07\x01\x00\x00\x00\x00\x00\x00\x00\x02";

/// The balance's outcome, 150.00.
pub(crate) const SHOWN: &[u8] =
    b"\x00\x13\x05\x00\x00\x00\x07\x00\x00\x00\x01\x00\x00\x00\x00\x00\x00\x00\x00\x3a\x98";

/// The deposit's outcome.
pub(crate) const DONE: &[u8] =
    b"\x00\x13\x05\x00\x00\x00\x07\x00\x00\x00\x02\x00\x01\x00\x00\x00\x00\x00\x00\x00\x00";

/// The outcome of another call under the balance's numbers.
pub(crate) const MISMATCH: &[u8] =
    b"\x00\x13\x05\x00\x00\x00\x07\x00\x00\x00\x01\x01\x00\x00\x00\x00\x00\x00\x00\x00\x00";

/// Checks how a session of what a reader gives ends, and what its client gets.
pub(crate) fn expect_session<S: CheckpointStore, K: Keeper>(
    rt: &impl Abort,
    alloc: Global,
    primary: &mut Primary<S, K>,
    reader: &mut impl Read,
    ends: Result<(), SessionFault>,
    told: &[u8],
) {
    let mut written: Vec<u8> = Vec::new(alloc);
    let ended = serve_session(alloc, reader, &mut written, primary, &mut InlineCrew);
    expect(rt, ended == ends, "how the session ends");
    expect_bytes(rt, &written, told, "what the client is told");
}

/// Checks that a session of these pieces ends well, by reads as long as they may be, and what its
/// client gets.
pub(crate) fn serve<S: CheckpointStore>(
    rt: &impl Abort,
    alloc: Global,
    primary: &mut Primary<S>,
    sent: &[&[u8]],
    told: &[&[u8]],
) {
    let sent = joined(rt, alloc, sent);
    let told = joined(rt, alloc, told);
    expect_session(rt, alloc, primary, &mut sent.as_slice(), Ok(()), &told);
}

/// Appends a copy of the model, with this request in its place.
pub(crate) fn push_with(rt: &impl Abort, model: &[u8], request: u32, out: &mut Vec<u8>) {
    let number = request.to_be_bytes();
    if let Some((head, rest)) = model.split_at_checked(7) {
        for piece in [head, number.as_slice(), rest.get(4..).unwrap_or_default()] {
            out.extend_from_slice(piece).expect(rt, "memory for bytes");
        }
    }
}

/// A copy of the model for each of these requests, and then this end.
pub(crate) fn frames(
    rt: &impl Abort,
    alloc: Global,
    requests: Range<u32>,
    model: &[u8],
    end: &[u8],
) -> Vec<u8> {
    let mut bytes = Vec::new(alloc);
    for request in requests {
        push_with(rt, model, request, &mut bytes);
    }
    bytes.extend_from_slice(end).expect(rt, "memory for bytes");
    bytes
}
