//! Checkpoints with one flipped bit.
use super::*;

// The fault, if there is one, of the bytes with the lowest bit flipped in the byte at this place.
fn flipped(
    rt: &(impl Abort + AllocGlobal),
    bytes: &mut [u8],
    position: usize,
) -> Option<CheckpointFault> {
    assert!(rt; position < bytes.len());
    bytes[position] ^= 1;
    let answer = fault_of(rt, bytes, THREE);
    bytes[position] ^= 1;
    answer
}

fn count_of(answers: &[Option<CheckpointFault>], answer: Option<CheckpointFault>) -> usize {
    answers.iter().filter(|other| **other == answer).count()
}

// Checks how many flips, one in each byte, have each of these answers.
fn are_answered(
    rt: &(impl Abort + AllocGlobal),
    fields: &[&str],
    counts: &[(Option<CheckpointFault>, usize)],
) {
    let mut bytes = bytes(rt, fields);
    let mut answers = Vec::new(rt.alloc());
    for position in 0..bytes.len() {
        let answer = flipped(rt, &mut bytes, position);
        answers.push(answer).expect(rt, "memory for an answer");
    }
    for (answer, count) in counts {
        assert!(rt; count_of(&answers, *answer) == *count, "{answer:?}");
    }
}

#[test]
fn the_lowest_bit_of_each_of_121_bytes(rt: HostRuntime) {
    are_answered(
        &rt,
        &FIRST,
        &[
            (Some(CheckpointFault::BadMagic), 8),
            (Some(CheckpointFault::Short), 10),
            (Some(CheckpointFault::WrongCustomers), 1),
            (Some(CheckpointFault::OutOfRange), 18),
            (Some(CheckpointFault::WrongTotal), 38),
            (Some(CheckpointFault::BadReply), 35),
            (Some(CheckpointFault::Long), 1),
            // The replies differ.
            (None, 10),
        ],
    );
}
