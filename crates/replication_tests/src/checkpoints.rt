//! Checkpoints as bytes, and bytes as checkpoints.
use sb_calls::Reply;
use sb_checkpoint::{Checkpoint, CheckpointFault, read_checkpoint, write_checkpoint};
use sb_rows::CUSTOMERS;
use std::process::Abort;

mod faults;
mod flips;
pub(crate) mod limits;
mod spellings;

// Three customers and five replies, by hand: the fields up to the balances in the first layout and
// in the second, the savings, the checking balances, their total, the opening total that the second
// layout has, and the replies.
pub(crate) const FIRST_HEAD: &str = "5342434b50543031 0000000000000005 00000003";

pub(crate) const SECOND_HEAD: &str = "5342434b50543032 0000000000000005 00000003";

pub(crate) const SAVINGS: &str = "0000000000000000 0000000000000000 0000000000000000";

pub(crate) const CHECKING: &str = "0000000000000000 00000000000009c4 0000000000000000";

pub(crate) const TOTAL: &str = "00000000000009c4";

pub(crate) const OPENING: &str = "0000000000004650";

pub(crate) const REPLIES: &str =
    "00 0000000000003a98 01 0000000000000000 01 0000000000000000 01 0000000000000000 01 0000000000000000";

pub(crate) const FIRST: [&str; 6] = [FIRST_HEAD, SAVINGS, CHECKING, TOTAL, "", REPLIES];

pub(crate) const SECOND: [&str; 6] = [SECOND_HEAD, SAVINGS, CHECKING, TOTAL, OPENING, REPLIES];

// What ties a checkpoint to its bank: the number of customers, and their opening total.
type Origin = (usize, i64);

const THREE: Origin = (3, 18_000);

// The bytes of these fields, each in hexadecimal digits; spaces are skipped.
pub(crate) fn bytes(rt: &(impl Abort + AllocGlobal), fields: &[&str]) -> Vec<u8> {
    let mut bare = Vec::new(rt.alloc());
    for digits in fields {
        for digit in digits.as_bytes() {
            if *digit != b' ' {
                bare.push(*digit).expect(rt, "memory for digits");
            }
        }
    }
    hex::decode(rt.alloc(), bare).expect(rt, "hexadecimal digits")
}

// The fault of the bytes, if they have one.
fn fault_of(
    rt: &(impl Abort + AllocGlobal),
    bytes: &[u8],
    origin: Origin,
) -> Option<CheckpointFault> {
    let (customers, opening_total) = origin;
    assert!(rt; customers <= CUSTOMERS);
    let answer = read_checkpoint(rt.alloc(), bytes, customers, opening_total);
    answer.err()
}

// Checks that the bytes are refused with this fault.
fn is_refused(
    rt: &(impl Abort + AllocGlobal),
    bytes: &[u8],
    origin: Origin,
    fault: CheckpointFault,
) {
    assert!(rt; fault_of(rt, bytes, origin) == Some(fault), "{fault:?}");
}

// The contents of a checkpoint.
#[derive(Clone, Copy)]
struct CheckpointParts<'a> {
    savings: &'a [i64],
    checking: &'a [i64],
    replies: &'a [Reply],
}

fn has_parts(rt: &impl Abort, checkpoint: &Checkpoint, parts: CheckpointParts<'_>) {
    assert!(rt; checkpoint.columns().savings() == parts.savings);
    assert!(rt; checkpoint.columns().checking() == parts.checking);
    assert!(rt; checkpoint.replies() == parts.replies);
}

// Checks that the bytes are read as this checkpoint of a bank with this opening total, and how that
// is written again.
fn are_read(
    rt: &(impl Abort + AllocGlobal),
    bytes: &[u8],
    opening_total: i64,
    parts: CheckpointParts<'_>,
    written: &[u8],
) {
    let customers = parts.savings.len();
    assert!(rt; customers <= CUSTOMERS);
    let read = read_checkpoint(rt.alloc(), bytes, customers, opening_total);
    let checkpoint = read.expect(rt, "a checkpoint");
    has_parts(rt, &checkpoint, parts);
    let again = write_checkpoint(
        rt.alloc(),
        checkpoint.columns(),
        opening_total,
        checkpoint.replies(),
    );
    assert!(rt; again.expect(rt, "memory for bytes").as_slice() == written);
}
