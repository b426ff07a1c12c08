//! Frames as bytes, and bytes as frames.
use crate::fixtures::{bytes, frame_bytes};
use sb_frames::{Frame, FrameFault, decode, encode, encode_entry};
use std::process::Abort;

mod faults;
mod spellings;

// Checks that an entry is spelled so from its call too.
fn entry_by_its_call(rt: &impl Abort, frame: &Frame, spelling: &[u8], what: &str) {
    if let Frame::Entry { number, call } = frame {
        assert!(rt;
            encode_entry(*number, call).as_slice() == spelling,
            "{what}"
        );
    }
}

// Checks the frame's spelling, and that it is decoded from these bytes.
fn both_ways(rt: &impl Abort, frame: Frame, spelling: &[u8], what: &str) {
    assert!(rt; encode(&frame).as_slice() == spelling, "{what}");
    entry_by_its_call(rt, &frame, spelling, what);
    assert!(rt; decode(spelling) == Ok((frame, spelling.len())), "{what}");
}

// Checks that this body, after its length, spells each frame, and that it is decoded from there.
fn have_bodies(rt: &(impl Abort + AllocGlobal), frames: &[(Frame, &str)]) {
    for (frame, body) in frames {
        both_ways(rt, *frame, &frame_bytes(rt, body), body);
    }
}

fn is_refused(rt: &impl Abort, bytes: &[u8], fault: FrameFault, what: &str) {
    assert!(rt; decode(bytes) == Err(fault), "{what}");
}
