//! A stream of bytes that are cut into pieces in many ways.
use crate::fixtures::{balance, bytes, entry, vectors};
use sb_frames::{Frame, FrameFault, Stream, StreamFault, encode};
use std::process::Abort;

fn new_stream(rt: &(impl Abort + AllocGlobal)) -> Box<Stream> {
    Box::new(rt.alloc(), Stream::new(rt.alloc())).expect(rt, "memory for a stream")
}

fn takes(rt: &impl Abort, stream: &mut Stream, bytes: &[u8]) {
    assert!(rt; stream.feed(bytes) == Ok(()));
}

fn gives(rt: &impl Abort, stream: &mut Stream, frame: Frame) {
    assert!(rt; stream.next() == Ok(Some(frame)), "{frame:?}");
}

fn waits(rt: &impl Abort, stream: &mut Stream) {
    assert!(rt; stream.next() == Ok(None));
}

// The bytes come one by one, and the frame is handed out after the last. Then they come in one
// piece.
fn feed_by_bytes_and_whole(rt: &impl Abort, stream: &mut Stream, frame: &Frame, bytes: &[u8]) {
    for byte in bytes {
        waits(rt, stream);
        takes(rt, stream, &[*byte]);
        assert!(rt; !stream.ended());
    }
    gives(rt, stream, *frame);
    assert!(rt; stream.ended());
    takes(rt, stream, bytes);
    gives(rt, stream, *frame);
    assert!(rt; stream.ended());
}

#[test]
fn frames_by_bytes_and_whole(rt: HostRuntime) {
    let mut stream = new_stream(&rt);
    for (frame, digits) in vectors(&rt) {
        feed_by_bytes_and_whole(&rt, &mut stream, &frame, &bytes(&rt, digits));
    }
}

// The stream has failed, and says so whatever comes.
fn has_failed(rt: &impl Abort, stream: &mut Stream) {
    assert!(rt; stream.next() == Err(StreamFault::Failed));
    assert!(rt; stream.feed(&[0, 1, 6]) == Err(StreamFault::Failed));
    assert!(rt; !stream.ended());
}

#[test]
fn a_fault_is_for_ever(rt: HostRuntime) {
    let mut stream = new_stream(&rt);
    takes(&rt, &mut stream, &[0, 1, 9]);
    takes(&rt, &mut stream, &[0, 1, 6]);
    let fault = StreamFault::Bad(FrameFault::UnknownTag);
    assert!(rt; stream.next() == Err(fault));
    for _ in 0..3 {
        has_failed(&rt, &mut stream);
    }
}

// The entry with this number, a balance of alice.
fn alices(rt: &impl Abort, number: u64) -> Frame {
    entry(number, &balance(rt, "alice"))
}

// The bytes of the entries from 0 on.
fn entries(rt: &(impl Abort + AllocGlobal), count: u64) -> Vec<u8> {
    let mut bytes = Vec::new(rt.alloc());
    for number in 0..count {
        let entry = encode(&alices(rt, number));
        bytes
            .extend_from_slice(&entry)
            .expect(rt, "memory for entries");
    }
    bytes
}

// 1,048,590 bytes: a stream that copied the unread bytes, or those that were read, at each of them
// would take minutes.
const ENTRIES: u64 = 58_255;

#[test]
fn a_long_stream_in_one_piece(rt: HostRuntime) {
    let mut stream = new_stream(&rt);
    takes(&rt, &mut stream, &entries(&rt, ENTRIES));
    for number in 0..ENTRIES {
        gives(&rt, &mut stream, alices(&rt, number));
    }
    waits(&rt, &mut stream);
    assert!(rt; stream.ended());
}

// The rest of this entry comes, and then the first byte of the next one.
#[tactic(auto, unfolding(sb_frames::specs::Grammar::spelling))]
fn feed_with_next(rt: &impl Abort, stream: &mut Stream, entry: Frame) {
    for byte in &encode(&entry)[1..] {
        takes(rt, stream, &[*byte]);
    }
    takes(rt, stream, &[0]);
    gives(rt, stream, entry);
    assert!(rt; !stream.ended());
}

// Frames are taken one behind, so that bytes of the next one are unread whenever bytes come.
#[test]
fn a_long_stream_that_is_never_empty(rt: HostRuntime) {
    let mut stream = new_stream(&rt);
    takes(&rt, &mut stream, &[0]);
    for number in 0..ENTRIES {
        feed_with_next(&rt, &mut stream, alices(&rt, number));
    }
}
