//! Bytes that aren't a checkpoint of the bank.
use super::*;

// Each proper beginning is too short, and a byte more is left over.
#[test]
fn bytes_that_are_missing_or_left_over(rt: HostRuntime) {
    for fields in [FIRST, SECOND] {
        let mut bytes = bytes(&rt, &fields);
        for length in 0..bytes.len() {
            is_refused(&rt, &bytes[..length], THREE, CheckpointFault::Short);
        }
        bytes.push(0).expect(&rt, "memory for a byte");
        is_refused(&rt, &bytes, THREE, CheckpointFault::Long);
    }
}

const ABOVE: &str = "0000000000000000 000000e8d4a51001 0000000000000000";

const NEGATIVE: &str = "0000000000000000 ffffffffffffffff 0000000000000000";

// Bob has one cent more than the total says.
const ANOTHER_BALANCE: &str = "0000000000000000 00000000000009c5 0000000000000000";

const CODE_8: &str =
    "08 0000000000000000 01 0000000000000000 01 0000000000000000 01 0000000000000000 01 0000000000000000";

// The number of customers, the savings, the checking balances and the replies, with the fault in
// either layout.
const FAULTS: [(usize, [&str; 3], CheckpointFault); 5] = [
    (
        4,
        [ABOVE, CHECKING, REPLIES],
        CheckpointFault::WrongCustomers,
    ),
    (3, [SAVINGS, ABOVE, CODE_8], CheckpointFault::OutOfRange),
    (
        3,
        [NEGATIVE, CHECKING, CODE_8],
        CheckpointFault::NegativeSavings,
    ),
    (
        3,
        [SAVINGS, ANOTHER_BALANCE, CODE_8],
        CheckpointFault::WrongTotal,
    ),
    (3, [SAVINGS, CHECKING, CODE_8], CheckpointFault::BadReply),
];

#[test]
fn fields_at_fault(rt: HostRuntime) {
    for (customers, [savings, checking, replies], fault) in FAULTS {
        let origin = (customers, 18_000);
        let first = [FIRST_HEAD, savings, checking, TOTAL, "", replies];
        is_refused(&rt, &bytes(&rt, &first), origin, fault);
        let second = [SECOND_HEAD, savings, checking, TOTAL, OPENING, replies];
        is_refused(&rt, &bytes(&rt, &second), origin, fault);
    }
    let another = (3, 18_001);
    is_refused(
        &rt,
        &bytes(&rt, &SECOND),
        another,
        CheckpointFault::WrongOpening,
    );
    is_refused(&rt, b"SBCKPT03", THREE, CheckpointFault::BadMagic);
}
