//! What is left after a crash, and what replicas get before one.
use sb_calls::Call;
use sb_frames::Frame;
use sb_log::{FaultyFile, LogFile, MemoryFile};
use sb_rows::Name;
use sb_sequencer::{AckNote, Numbered};
use schedule_sequencer::DurableSequencer;
use std::process::Abort;

// Client 1 asks this call.
const CLIENT: u32 = 1;

// The balance of the customer whose name is this letter.
fn balance(rt: &impl Abort, letter: u8) -> Call {
    Call::Balance(Name::new(&[letter]).expect(rt, "a name"))
}

// A sequencer for two replicas, without a call.
fn opened(rt: &(impl Abort + AllocGlobal)) -> Box<DurableSequencer> {
    let log = DurableSequencer::open(rt.alloc(), 2).expect(rt, "memory");
    Box::new(rt.alloc(), log).expect(rt, "memory")
}

// The client asks with these requests, each for the customer of its letter. Each gets the number that
// comes next.
fn append_all(rt: &impl Abort, log: &mut DurableSequencer, requests: &[u8]) {
    for request in requests {
        let next = log.length().saturating_add(1);
        let answer = log.append(CLIENT, u32::from(*request), &balance(rt, *request));
        assert!(rt; answer == Ok(Numbered::New(next)), "{next}");
    }
}

// The log has exactly the calls of these letters, and the first of them, this many, are synced.
fn has(rt: &impl Abort, log: &DurableSequencer, letters: &[u8], synced: u64) {
    assert!(rt; log.length() == letters.len() as u64, "the length");
    assert!(rt; log.synced() == synced, "the synced length");
    assert!(rt;
        log.synced_calls().len() as u64 == synced,
        "the synced calls"
    );
    for (letter, number) in letters.iter().zip(1..u64::MAX) {
        let call = balance(rt, *letter);
        assert!(rt; log.call(number) == Some(&call), "{number}");
        let entry = if number <= synced {
            Some(Frame::Entry { number, call })
        } else {
            None
        };
        assert!(rt; log.entry(number) == entry, "{number}");
    }
    let behind = (letters.len() as u64).saturating_add(1);
    assert!(rt;
        log.call(0).is_none() && log.call(behind).is_none(),
        "a call behind the log"
    );
    assert!(rt;
        log.entry(0).is_none() && log.entry(behind).is_none(),
        "an entry behind the log"
    );
}

// The replica gets the entries of these letters, from this number on.
fn gets(rt: &impl Abort, log: &DurableSequencer, replica: u8, first: u64, letters: &[u8]) {
    let entries = log.resend(replica);
    assert!(rt; entries.len() == letters.len(), "{first}");
    for ((entry, letter), number) in entries.iter().zip(letters).zip(first..u64::MAX) {
        let call = balance(rt, *letter);
        assert!(rt; *entry == Frame::Entry { number, call }, "{number}");
    }
}

#[test]
fn only_what_is_synced_is_sent(rt: HostRuntime) {
    let mut log = opened(&rt);
    append_all(&rt, &mut log, b"abcd");
    gets(&rt, &log, 0, 1, b"");
    log.sync();
    append_all(&rt, &mut log, b"ef");
    has(&rt, &log, b"abcdef", 4);
    gets(&rt, &log, 0, 1, b"abcd");
    assert!(rt; log.on_ack(0, 3) == AckNote::Recorded, "a synced length");
    gets(&rt, &log, 0, 4, b"d");
    assert!(rt;
        log.on_ack(0, 5) == AckNote::Odd,
        "a length above the synced one"
    );
    gets(&rt, &log, 0, 4, b"d");
    gets(&rt, &log, 2, 1, b"");
    log.sync();
    has(&rt, &log, b"abcdef", 6);
    gets(&rt, &log, 0, 4, b"def");
    assert!(rt; log.on_ack(0, 5) == AckNote::Recorded, "it is synced now");
}

#[test]
fn a_crash_leaves_these_calls(rt: HostRuntime) {
    for kept in 0..10 {
        let mut log = opened(&rt);
        append_all(&rt, &mut log, b"abc");
        log.sync();
        append_all(&rt, &mut log, b"defg");
        assert!(rt; log.crash(kept).is_ok(), "memory");
        let left = kept.max(3).min(7);
        has(&rt, &log, &b"abcdefg"[..left as usize], left);
        // It goes on, and can crash again.
        append_all(&rt, &mut log, b"xy");
        assert!(rt; log.crash(0).is_ok(), "memory");
        has(&rt, &log, &b"abcdefg"[..left as usize], left);
    }
}

// What is left of a file whose first sync fails, and leaves this many of its two bytes. It is synced again behind a
// third byte, and before that written again, or not.
fn left_behind(rt: &(impl Abort + AllocGlobal), kept: usize, is_written_again: bool) -> MemoryFile {
    let mut file = FaultyFile::new(MemoryFile::new(rt.alloc()), 2, kept);
    file.append(b"ab").expect(rt, "memory");
    assert!(rt; file.sync().is_err(), "the sync fails");
    if is_written_again {
        file.write_again(0, b"ab").expect(rt, "the same bytes");
    }
    file.append(b"c").expect(rt, "memory");
    file.sync().expect(rt, "a sync");
    let mut left = file.into_inner();
    left.crash(0);
    left
}

#[test]
fn a_sync_after_one_that_failed(rt: HostRuntime) {
    for kept in 0..4 {
        // If both bytes are left, the third one is reached too.
        let reached = if kept < 2 { kept } else { 3 };
        let left = left_behind(&rt, kept, false);
        assert!(rt; left.bytes() == &b"abc"[..reached], "{kept} kept");
        let left = left_behind(&rt, kept, true);
        assert!(rt; left.bytes() == b"abc".as_slice(), "{kept} kept");
    }
}
