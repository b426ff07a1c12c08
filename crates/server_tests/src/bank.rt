//! The bank of three customers.
ghost use Rattle.std.specs.Prelude.{◌≡◌, []};
ghost use Rattle.bank_server.specs.Execution.{HasNoEntries};

use bank_server::Primary;
use sb_checkpoint::{CheckpointStore, MemoryStore};
use sb_rows::read_opening;
use std::alloc::Global;
use std::process::Abort;

pub(crate) const OPENING: &[u8] = b"alice 100.00 50.00\nbob 0.00 20.00\ncarol 10.00 0.00\nbegin\n";

/// The bank at another opening.
pub(crate) const OTHER_OPENING: &[u8] =
    b"alice 100.00 50.00\nbob 0.00 20.01\ncarol 10.00 0.00\nbegin\n";

/// Checks one case.
pub(crate) fn expect(rt: &impl Abort, holds: bool, case: &str) {
    assert!(rt; holds, "{case}");
}

/// Checks the bytes of a case.
pub(crate) fn expect_bytes(rt: &impl Abort, found: &[u8], wanted: &[u8], case: &str) {
    assert!(rt; found == wanted, "{case}");
}

/// The bank over a store in memory, with an empty log.
pub(crate) fn opened(rt: &impl Abort, alloc: Global) -> Box<Primary<MemoryStore>>
    ensures log { result.value.log ≡ [] }
    ensures opened { HasNoEntries result.value.node.board }
{
    opened_over(rt, alloc, MemoryStore::new(alloc))
}

/// The same over this store.
pub(crate) fn opened_over<S: CheckpointStore>(
    rt: &impl Abort,
    alloc: Global,
    store: S,
) -> Box<Primary<S>>
    ensures log { result.value.log ≡ [] }
    ensures opened { HasNoEntries result.value.node.board }
{
    opened_at(rt, alloc, OPENING, store)
}

/// The same at this opening.
pub(crate) fn opened_at<S: CheckpointStore>(
    rt: &impl Abort,
    alloc: Global,
    opening: &[u8],
    store: S,
) -> Box<Primary<S>>
    ensures log { result.value.log ≡ [] }
    ensures opened { HasNoEntries result.value.node.board }
{
    let opening = read_opening(alloc, opening).expect(rt, "an opening");
    let primary = Primary::open(alloc, opening, store).expect(rt, "memory for a bank");
    Box::new(alloc, primary).expect(rt, "memory for a box")
}

/// These pieces, one after another.
pub(crate) fn joined(rt: &impl Abort, alloc: Global, pieces: &[&[u8]]) -> Vec<u8> {
    let mut bytes = Vec::new(alloc);
    for piece in pieces {
        bytes
            .extend_from_slice(piece)
            .expect(rt, "memory for bytes");
    }
    bytes
}
