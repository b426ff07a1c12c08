//! Checkpoints as text: listings, each fault and its words, and a writer that fails.
use checkpoint_text::{CheckpointListFault, CheckpointListing, list_as_opening, list_checkpoint};
use sb_rows::{Opening, read_opening};
use std::alloc::Global;
use std::process::Abort;

mod faults;
mod listings;
mod plain;
mod writers;

// Three customers and five replies, in the first layout.
const FIRST: &[u8] = b"SBCKPT01\x00\x00\x00\x00\x00\x00\x00\x05\x00\x00\x00\x03\
\x00\x00\x00\x00\x00\x00\x00\x00\x00\x00\x00\x00\x00\x00\x00\x00\x00\x00\x00\x00\x00\x00\x00\x00\
\x00\x00\x00\x00\x00\x00\x00\x00\x00\x00\x00\x00\x00\x00\x09\xc4\x00\x00\x00\x00\x00\x00\x00\x00\
\x00\x00\x00\x00\x00\x00\x09\xc4\
\x00\x00\x00\x00\x00\x00\x00\x3a\x98\
\x01\x00\x00\x00\x00\x00\x00\x00\x00\
\x01\x00\x00\x00\x00\x00\x00\x00\x00\
\x01\x00\x00\x00\x00\x00\x00\x00\x00\
\x01\x00\x00\x00\x00\x00\x00\x00\x00";

// The same in the second, which has the opening total.
const SECOND: &[u8] = b"SBCKPT02\x00\x00\x00\x00\x00\x00\x00\x05\x00\x00\x00\x03\
\x00\x00\x00\x00\x00\x00\x00\x00\x00\x00\x00\x00\x00\x00\x00\x00\x00\x00\x00\x00\x00\x00\x00\x00\
\x00\x00\x00\x00\x00\x00\x00\x00\x00\x00\x00\x00\x00\x00\x09\xc4\x00\x00\x00\x00\x00\x00\x00\x00\
\x00\x00\x00\x00\x00\x00\x09\xc4\x00\x00\x00\x00\x00\x00\x46\x50\
\x00\x00\x00\x00\x00\x00\x00\x3a\x98\
\x01\x00\x00\x00\x00\x00\x00\x00\x00\
\x01\x00\x00\x00\x00\x00\x00\x00\x00\
\x01\x00\x00\x00\x00\x00\x00\x00\x00\
\x01\x00\x00\x00\x00\x00\x00\x00\x00";

// The opening of their bank.
const OPENING: &[u8] = b"alice 100.00 50.00\nbob 0.00 20.00\ncarol 10.00 0.00\nbegin\n";

fn opened(rt: &impl Abort, alloc: Global, text: &[u8]) -> Box<Opening> {
    let opening = read_opening(alloc, text).expect(rt, "an opening");
    Box::new(alloc, opening).expect(rt, "memory for a box")
}

// A line, with room for a listing.
fn line(rt: &impl Abort, alloc: Global) -> Vec<u8> {
    let mut line = Vec::with_capacity(alloc, 1_000).expect(rt, "memory for a line");
    line.extend_from_slice(b"before\n").expect(rt, "room");
    line
}

// What is written of a checkpoint after a line, and the fault. If `rt try --fail-alloc` refuses the
// listing memory, it is made again.
fn listed(
    rt: &impl Abort,
    alloc: Global,
    bytes: &[u8],
    listing: CheckpointListing,
) -> (Vec<u8>, Option<CheckpointListFault>) {
    let mut written = line(rt, alloc);
    let mut fault = list_checkpoint(alloc, bytes, listing, &mut written).err();
    if fault == Some(CheckpointListFault::OutOfMemory) {
        fault = list_checkpoint(alloc, bytes, listing, &mut written).err();
    }
    (written, fault)
}

// The same of a checkpoint listed as an opening.
fn listed_as_opening(
    rt: &impl Abort,
    alloc: Global,
    bytes: &[u8],
    opening: &Opening,
) -> (Vec<u8>, Option<CheckpointListFault>) {
    let mut written = line(rt, alloc);
    let mut fault = list_as_opening(alloc, bytes, opening, &mut written).err();
    if fault == Some(CheckpointListFault::OutOfMemory) {
        fault = list_as_opening(alloc, bytes, opening, &mut written).err();
    }
    (written, fault)
}

// Checks that this text, and nothing else, was written after the line, and that all went well.
fn expect_text(
    rt: &impl Abort,
    listed: &(Vec<u8>, Option<CheckpointListFault>),
    text: &[u8],
    case: &str,
) {
    let (written, fault) = listed;
    assert!(rt; fault.is_none(), "{case}: {fault:?}");
    let rest = written.strip_prefix(b"before\n".as_slice());
    assert!(rt; rest == Some(text), "{case}");
}

// Checks that bytes were refused with this fault, and that nothing was written.
fn expect_fault(
    rt: &impl Abort,
    listed: &(Vec<u8>, Option<CheckpointListFault>),
    wanted: CheckpointListFault,
    case: &str,
) {
    let (written, fault) = listed;
    assert!(rt; *fault == Some(wanted), "{case}: {fault:?}");
    assert!(rt;
        written.as_slice() == b"before\n".as_slice(),
        "{case}: nothing is written"
    );
}
