//! What the replicas send, how it is noted, and what they get.
use super::*;

#[test]
fn the_first_answer_is_kept(rt: HostRuntime) {
    play_steps(
        &rt,
        1,
        &[
            Step::AskMany(1, "alice"),
            Step::AnswerOf(1, 0, None),
            Step::Answer(1, Reply::Done, AnswerNote::Kept),
            Step::Answer(1, Reply::Done, AnswerNote::Repeat),
            Step::Answer(1, Reply::Negative, AnswerNote::Odd),
            Step::Answer(2, Reply::Done, AnswerNote::Unknown),
            Step::AnswerOf(1, 0, Some(Reply::Done)),
            Step::AnswerOf(1, 1, None),
            Step::Ack(0, 2, AckNote::Odd),
        ],
    );
}

#[test]
fn sends_again_what_a_replica_lacks(rt: HostRuntime) {
    play_steps(
        &rt,
        1,
        &[
            Step::AskMany(20, "alice"),
            Step::Resends(0, 1, 16, "alice"),
            Step::Resends(1, 1, 0, "alice"),
            Step::Ack(0, 17, AckNote::Recorded),
            Step::Resends(0, 18, 3, "alice"),
            Step::Entry(20, Some("alice")),
            Step::Entry(21, None),
        ],
    );
}

// The last length that was received is the one that counts, and of equal ones the first replica's.
#[test]
fn the_longest_checkpoint_is_given(rt: HostRuntime) {
    play_steps(
        &rt,
        16,
        &[
            Step::AskMany(9, "alice"),
            Step::Donor(0, None),
            Step::Have(1, 4, HaveNote::Recorded),
            Step::Have(2, 7, HaveNote::Recorded),
            Step::Have(15, 6, HaveNote::Recorded),
            Step::Have(15, 10, HaveNote::Odd),
            Step::Have(16, 1, HaveNote::Odd),
            Step::Donor(0, Some((2, 7))),
            Step::Donor(2, Some((15, 6))),
            Step::Have(2, 6, HaveNote::Recorded),
            Step::Donor(0, Some((2, 6))),
            Step::Ack(0, 6, AckNote::Recorded),
            Step::Donor(0, None),
            Step::Donor(16, None),
        ],
    );
}
