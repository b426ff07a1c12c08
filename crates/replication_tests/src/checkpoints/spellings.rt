//! A checkpoint worked by hand, in each layout.
use super::*;

const FIVE_REPLIES: [Reply; 5] = [
    Reply::Shown(15_000),
    Reply::Done,
    Reply::Done,
    Reply::Done,
    Reply::Done,
];

#[test]
fn three_customers_and_five_replies(rt: HostRuntime) {
    let first = bytes(&rt, &FIRST);
    let second = bytes(&rt, &SECOND);
    assert!(&rt; first.len() == 121 && second.len() == 129);
    let parts = CheckpointParts {
        savings: &[0, 0, 0],
        checking: &[0, 2_500, 0],
        replies: &FIVE_REPLIES,
    };
    are_read(&rt, &first, 18_000, parts, &second);
    are_read(&rt, &second, 18_000, parts, &second);
}
