//! The largest checkpoints.
use super::*;
use sb_amount::Cents;
use sb_rows::Columns;

// As many customers as a bank may have, each with savings of 1 cent and the least checking balance.
pub(crate) fn full_bank(rt: &(impl Abort + AllocGlobal)) -> Columns {
    let savings = Cents::new(1).expect(rt, "an amount");
    let checking = Cents::new(-1_000_000_000_000).expect(rt, "an amount");
    let mut columns = Columns::new(rt.alloc());
    for _ in 0..CUSTOMERS {
        if columns.customers() < CUSTOMERS {
            columns
                .push(savings, checking)
                .expect(rt, "memory for customers");
        }
    }
    columns
}

#[test]
fn a_full_bank_is_written_and_read(rt: HostRuntime) {
    let columns = full_bank(&rt);
    let least = -65_536 * 1_000_000_000_000;
    let bytes = write_checkpoint(rt.alloc(), &columns, least, &[]).expect(&rt, "memory for bytes");
    assert!(&rt; bytes.len() == 36 + 16 * 65_536);
    let parts = CheckpointParts {
        savings: columns.savings(),
        checking: columns.checking(),
        replies: &[],
    };
    are_read(&rt, &bytes, least, parts, &bytes);
}

// The fields of a checkpoint of no customers in each layout, before its length and after it.
const FIRST_OF_NOBODY: [&str; 2] = ["5342434b50543031", "00000000 0000000000000000"];

const SECOND_OF_NOBODY: [&str; 2] = [
    "5342434b50543032",
    "00000000 0000000000000000 0000000000000000",
];

// A checkpoint of no customers, of this length, with this many replies, each of which shows 0.
fn shown_nothing(
    rt: &(impl Abort + AllocGlobal),
    layout: [&str; 2],
    length: &str,
    replies: usize,
) -> Vec<u8> {
    let [head, behind] = layout;
    let mut bytes = bytes(rt, &[head, length, behind]);
    let size = bytes.len().saturating_add(replies.saturating_mul(9));
    bytes.resize(size, 0).expect(rt, "memory for replies");
    bytes
}

#[test]
fn a_full_log_is_read_and_written(rt: HostRuntime) {
    let length = "00000000000f4240";
    let first = shown_nothing(&rt, FIRST_OF_NOBODY, length, 1_000_000);
    let second = shown_nothing(&rt, SECOND_OF_NOBODY, length, 1_000_000);
    let replies = Vec::from_elem(rt.alloc(), Reply::Shown(0), 1_000_000);
    let replies = replies.expect(&rt, "memory for replies");
    let parts = CheckpointParts {
        savings: &[],
        checking: &[],
        replies: &replies,
    };
    are_read(&rt, &first, 0, parts, &second);
    are_read(&rt, &second, 0, parts, &second);
}
