//! Lines that were answered otherwise than by a reply.
use bank_program::{AnswerCounts, AskWatch, RunWatch, count_answers};
use std::io::Write;

// These counts.
fn counts(answers: usize, log_full: usize, mismatches: usize) -> AnswerCounts {
    AnswerCounts {
        answers,
        log_full,
        mismatches,
    }
}

// A customer may have the name that an answer begins with.
const MIXED: &[u8] = b"1 shown 150.00\nlog full\nmismatch 1\n2 no customer\nlog full\n\
    mismatch 0.00 1.00\nlog 0.00 -1.00\ntotal 0.00\n";

#[test]
fn answers_of_a_run(rt: HostRuntime) {
    assert!(&rt; count_answers(MIXED) == counts(5, 2, 1));
    let replies = b"1 done\n2 would overdraw\nfull 1.00 2.00\ntotal 3.00\n";
    assert!(&rt; count_answers(replies) == counts(0, 0, 0));
    assert!(&rt; count_answers(b"") == counts(0, 0, 0));
    let mut writer = RunWatch::new(Vec::new(rt.alloc()));
    assert!(&rt; writer.counts() == counts(0, 0, 0));
    assert!(&rt; writer.write(MIXED).is_ok());
    // What it is offered once more was counted.
    assert!(&rt; writer.write(&MIXED[10..]).is_ok());
    assert!(&rt; writer.counts() == counts(5, 2, 1));
}

#[test]
fn answers_of_a_client(rt: HostRuntime) {
    let mut writer = AskWatch::new(Vec::new(rt.alloc()));
    for piece in [
        "1 done\n2 mism",
        "atch\n3 log f",
        "ull\n4 shown 1.00\n5 log full\n6 mis",
    ] {
        assert!(&rt; writer.write(piece.as_bytes()).is_ok());
    }
    assert!(&rt; writer.counts() == counts(5, 2, 1));
}
