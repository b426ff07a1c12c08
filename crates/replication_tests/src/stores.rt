//! Where checkpoints are kept: in memory, and in files.
use sb_checkpoint::{CheckpointStore, StoreFault};
use std::process::Abort;

mod faulty_files;
mod faulty_stores;
mod files;
mod memory;
mod pairs;

// Checks that the store holds these bytes, and no fewer, more or other ones.
fn has_content<S: CheckpointStore>(rt: &impl Abort, store: &mut S, bytes: &[u8]) {
    let held = store.get().expect(rt, "a get fails");
    let held = held.expect(rt, "nothing is held");
    assert!(rt; held.as_slice() == bytes);
    assert!(rt; store.has_content(bytes) == Ok(true));
    assert!(rt; store.has_content(b"fir") == Ok(false));
    assert!(rt; store.has_content(b"some bytes more") == Ok(false));
    assert!(rt; store.has_content(b"others") == Ok(false));
}

fn holds_nothing<S: CheckpointStore>(rt: &impl Abort, store: &mut S) {
    let held = store.get().expect(rt, "a get fails");
    assert!(rt; held.is_none());
    assert!(rt; store.has_content(b"") == Ok(false));
}

// Checks how a put ends, and how often the store's device has failed by then.
fn puts<S: CheckpointStore>(
    rt: &impl Abort,
    store: &mut S,
    bytes: &[u8],
    answer: Result<(), StoreFault>,
    failures: u64,
) {
    assert!(rt; store.put(bytes) == answer);
    assert!(rt; store.failures() == failures);
}
