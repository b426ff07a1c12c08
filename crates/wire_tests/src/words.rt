//! The texts of the faults.
use sb_frames::{FrameFault, StreamFault};
use sb_sequencer::AskFault;
use std::fmt::Display;
use std::process::Abort;

// Checks the text of a fault.
fn has_words(rt: &(impl Abort + AllocGlobal), fault: impl Display + Drop, words: &str) {
    let text = fault.to_string(rt.alloc()).expect(rt, "memory for a text");
    assert!(rt; text.as_str() == words, "{words}");
}

#[test]
fn texts_of_faults(rt: HostRuntime) {
    for (fault, words) in [
        (FrameFault::Short, "short"),
        (FrameFault::BadLength, "bad length"),
        (FrameFault::UnknownTag, "unknown tag"),
        (FrameFault::BadName, "bad name"),
        (FrameFault::BadAmount, "bad amount"),
        (FrameFault::BadReply, "bad reply"),
        (FrameFault::BadStatus, "bad status"),
    ] {
        has_words(&rt, fault, words);
    }
    for (fault, words) in [
        (StreamFault::Bad(FrameFault::BadName), "bad frame: bad name"),
        (StreamFault::Failed, "failed"),
        (StreamFault::OutOfMemory, "out of memory"),
    ] {
        has_words(&rt, fault, words);
    }
    for (fault, words) in [
        (AskFault::Mismatch(12), "mismatch 12"),
        (AskFault::LogFull, "log full"),
        (AskFault::OutOfMemory, "out of memory"),
    ] {
        has_words(&rt, fault, words);
    }
}
