//! A stream of frames.

use crate::fault::CaseFault;
use crate::report::Report;
use sb_calls::{Call, WireReply};
use sb_frames::{AskOutcome, Stream, StreamFault, encode};
use std::alloc::Global;

// Frames, one of them in two pieces.
const PIECES: &[&[u8]] = &[
    b"\x00\x10\x01\x00\x00\x00\x07\x00\x00\x00\x01\x01\x05alice",
    b"\x00\x16\x01\x00\x00\x00\x07\x00\x00\x00\x02\x02\x03bob\x00\x00\x00\x00\x00\x00\x01\xf4",
    b"\x00\x10\x02\x00\x00\x00\x00\x00\x00\x00\x01\x01\x05alice",
    b"\x00\x0a\x03\x01\x00\x00\x00\x00\x00\x00\x00\x02",
    b"\x00\x12\x04\x00\x00\x00\x00\x00\x00\x00\x02",
    b"\x01\x00\x00\x00\x00\x00\x00\x00\x00",
    b"\x00\x13\x05\x00\x00\x00\x07\x00\x00\x00\x01\x00\x00\x00\x00\x00\x00\x00\x00\x3a\x98",
    b"\x00\x01\x06",
    b"\x00\x0a\x07\x01\x00\x00\x00\x00\x00\x00\x00\x02",
];

/// Reports the frames that come out, as they are spelled.
pub(crate) fn play_case(alloc: Global, report: &mut Report) -> Result<(), CaseFault> {
    let mut stream = Stream::new(alloc);
    for piece in PIECES {
        feed(&mut stream, piece, report)?;
    }
    for _ in PIECES {
        hand_out(&mut stream, report)?;
    }
    Ok(report.add_bytes()?)
}

/// Bytes come.
pub(crate) fn feed(
    stream: &mut Stream,
    bytes: &[u8],
    report: &mut Report,
) -> Result<(), CaseFault> {
    match stream.feed(bytes) {
        Err(StreamFault::OutOfMemory) => {
            report.refused("Stream::feed")?;
            Ok(stream.feed(bytes)?)
        }
        fed => Ok(fed?),
    }
}

// The next frame is handed out, if there is one.
fn hand_out(stream: &mut Stream, report: &mut Report) -> Result<(), CaseFault> {
    // The checker takes the frame apart, and needs the types spelled out.
    let _parts: Option<(Call, WireReply, AskOutcome)> = None;
    if let Some(frame) = stream.next()? {
        report.written.extend_from_slice(encode(&frame).as_slice())?;
    }
    Ok(())
}
