//! The words of the faults.
use sb_checkpoint::{CheckpointFault, StoreFault};
use sb_frames::{FrameFault, StreamFault};
use sb_replica::{AdoptFault, MarkFault, ReceiveFault, ReplicaFault, RestartFault};
use std::fmt::Display;
use std::process::Abort;

// Checks the text of a fault.
fn has_text(rt: &(impl Abort + AllocGlobal), fault: impl Display + Drop, words: &str) {
    let text = fault.to_string(rt.alloc()).expect(rt, "memory for a text");
    assert!(rt; text.as_str() == words, "{words}");
}

#[test]
fn words_of_a_checkpoints_faults(rt: HostRuntime) {
    for (fault, words) in [
        (CheckpointFault::BadMagic, "bad magic"),
        (CheckpointFault::Short, "short"),
        (CheckpointFault::WrongCustomers, "wrong customers"),
        (CheckpointFault::OutOfRange, "out of range"),
        (CheckpointFault::NegativeSavings, "negative savings"),
        (CheckpointFault::WrongTotal, "wrong total"),
        (CheckpointFault::BadReply, "bad reply"),
        (CheckpointFault::Long, "long"),
        (CheckpointFault::OutOfMemory, "out of memory"),
        (CheckpointFault::WrongOpening, "wrong opening"),
    ] {
        has_text(&rt, fault, words);
    }
}

#[test]
fn words_of_a_replicas_faults(rt: HostRuntime) {
    let (short, long) = (FrameFault::Short, CheckpointFault::Long);
    has_text(&rt, StoreFault::Device, "device fault");
    has_text(&rt, StoreFault::OutOfMemory, "out of memory");
    has_text(&rt, ReplicaFault::BadFrame(short), "bad frame: short");
    has_text(&rt, ReplicaFault::OutOfMemory, "out of memory");
    has_text(&rt, ReceiveFault::Stream(StreamFault::Failed), "failed");
    has_text(&rt, ReceiveFault::OutOfMemory, "out of memory");
    has_text(&rt, MarkFault::Busy, "busy");
    has_text(&rt, MarkFault::Device, "device fault");
    has_text(&rt, MarkFault::OutOfMemory, "out of memory");
    has_text(&rt, RestartFault::Device, "device fault");
    has_text(
        &rt,
        RestartFault::BadCheckpoint(long),
        "bad checkpoint: long",
    );
    has_text(&rt, RestartFault::OutOfMemory, "out of memory");
    has_text(&rt, AdoptFault::BadCheckpoint(long), "bad checkpoint: long");
    has_text(&rt, AdoptFault::OutOfMemory, "out of memory");
}
