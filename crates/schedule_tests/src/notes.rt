//! Notes as text.
use sb_calls::Reply;
use schedule_text::{AuditNote, Column, Note, push_note};
use std::alloc::Global;
use std::process::Abort;

const NOTES: &[(Note, &str)] = &[
    (Note::New(1), "new 1\n"),
    (Note::Repeat(20), "repeat 20\n"),
    (Note::Mismatch(3), "mismatch 3\n"),
    (Note::LogFull, "log full\n"),
    (Note::Synced(0), "synced 0\n"),
    (Note::Crashed(u64::MAX), "crashed 18446744073709551615\n"),
    (Note::Sent(4), "sent 4\n"),
    (Note::Resent(0), "resent 0\n"),
    (Note::Accepted(6), "accepted 6\n"),
    (Note::Held(64), "held 64\n"),
    (Note::Gap(0), "gap 0\n"),
    (Note::Busy(1_024), "busy 1024\n"),
    (Note::Recorded(9), "recorded 9\n"),
    (Note::Odd, "odd\n"),
    (Note::Kept(10), "kept 10\n"),
    (Note::OddAnswer(11), "odd 11\n"),
    (Note::Unknown(12), "unknown 12\n"),
    (Note::Took(13), "took 13\n"),
    (Note::HandFull, "hand full\n"),
    (
        Note::Finished(2, Reply::Shown(-5)),
        "finished 2 shown -0.05\n",
    ),
    (Note::Stranger(14), "stranger 14\n"),
    (Note::Cut(16), "cut 16\n"),
    (Note::Pending(17), "pending 17\n"),
    (Note::Marked(15), "marked 15\n"),
    (Note::Unfinished, "busy\n"),
    (Note::StoreFault, "store fault\n"),
    (Note::Restarted(18), "restarted 18\n"),
    (Note::Has(0), "has 0\n"),
    (Note::Donor(15, 1_000_000), "donor 15 1000000\n"),
    (Note::Gave(1), "gave 1\n"),
    (Note::Adopted(20), "adopted 20\n"),
    (Note::Behind(21), "behind 21\n"),
    (Note::Audit(AuditNote::Busy(7)), "busy 7\n"),
    (Note::Audit(AuditNote::Apart(2, 10)), "apart 2 10\n"),
    (
        Note::Audit(AuditNote::Differ(Column::Savings, 0)),
        "differ savings 0\n",
    ),
    (
        Note::Audit(AuditNote::Differ(Column::Checking, 12)),
        "differ checking 12\n",
    ),
    (
        Note::Audit(AuditNote::OffBooks(100, -1)),
        "off books 1.00 -0.01\n",
    ),
    (Note::Audit(AuditNote::Same(15_400, 3)), "same 154.00 3\n"),
    (Note::Nothing, "nothing\n"),
];

// Writes one note behind what was written, and compares its line.
fn expect_line(rt: &impl Abort, alloc: Global, note: Note, line: &str) {
    let mut out = Vec::from_slice(alloc, b"before\n").expect(rt, "memory");
    assert!(rt; push_note(note, &mut out) == Ok(()), "{line}");
    let written = out.strip_prefix(b"before\n".as_slice());
    assert!(rt; written == Some(line.as_bytes()), "{line}");
}

#[test]
fn each_note(rt: HostRuntime) {
    for (note, line) in NOTES {
        expect_line(&rt, rt.alloc(), *note, line);
    }
}
