//! Clients whose connections break.
use crate::bank::{joined, opened};
use crate::devices::{BytewiseReader, HaltingReader, Hitch, InterruptedReader, NarrowWriter};
use crate::wire::{BALANCE, DEPOSIT, DONE, FLUSH, SHOWN, expect_session, serve};
use bank_server::{Primary, SessionFault, serve_session};
use cown_board::Runs;
use cown_workers::InlineCrew;
use sb_checkpoint::MemoryStore;
use std::alloc::Global;
use std::process::Abort;

// What each client sends, and what is sent to it.
const SENT: &[&[u8]] = &[BALANCE, DEPOSIT, FLUSH, BALANCE, FLUSH];

const TOLD: &[&[u8]] = &[SHOWN, DONE, SHOWN];

// Checks a session that broke off after this many bytes: it left a log of this length, which node 0
// was offered.
fn expect_broken(
    rt: &impl Abort,
    ended: Result<(), SessionFault>,
    primary: &Primary<MemoryStore>,
    length: u64,
    after: usize,
) {
    let is_broken = ended == Err(SessionFault::Device) && primary.log().length() == length;
    assert!(rt; is_broken, "after {after} bytes");
    let is_offered = primary.node().length() == length;
    assert!(rt; is_offered, "node 0 after {after} bytes");
}

// How many asks are whole in this many bytes of two asks and a flush.
fn whole_asks(bytes: u32) -> u64 {
    match bytes {
        0..=17 => 0,
        18..=41 => 1,
        _ => 2,
    }
}

// A client's connection breaks after this many bytes.
fn break_after(rt: &impl Abort, alloc: Global, bytes: u32, primary: &mut Primary<MemoryStore>) {
    let sent = joined(rt, alloc, SENT);
    let mut reader = BytewiseReader {
        left: &sent,
        reads: bytes.saturating_mul(2),
        fails: true,
    };
    let mut written: Vec<u8> = Vec::new(alloc);
    let ended = serve_session(alloc, &mut reader, &mut written, primary, &mut InlineCrew);
    expect_broken(rt, ended, primary, whole_asks(bytes), bytes as usize);
}

#[test]
fn a_read_that_fails(rt: HostRuntime) {
    for bytes in 0..67u32 {
        let mut primary = opened(&rt, rt.alloc());
        break_after(&rt, rt.alloc(), bytes, &mut primary);
        serve(&rt, rt.alloc(), &mut *primary, SENT, TOLD);
    }
}

// A client takes this many bytes, and hangs up.
fn hang_up_after(rt: &impl Abort, alloc: Global, room: usize, primary: &mut Primary<MemoryStore>) {
    let sent = joined(rt, alloc, SENT);
    let mut reader = sent.as_slice();
    let mut writer = NarrowWriter::new(alloc, room, true);
    let ended = serve_session(alloc, &mut reader, &mut writer, primary, &mut InlineCrew);
    expect_broken(rt, ended, primary, 2, room);
}

#[test]
fn a_client_that_hangs_up(rt: HostRuntime) {
    for room in 0..63usize {
        let mut primary = opened(&rt, rt.alloc());
        hang_up_after(&rt, rt.alloc(), room, &mut primary);
        serve(&rt, rt.alloc(), &mut *primary, SENT, TOLD);
    }
}

// Checks that a read with a hitch changes nothing about a session.
fn halt_at(rt: &impl Abort, alloc: Global, away: u32, hitch: Hitch) {
    let mut primary = opened(rt, alloc);
    let sent = joined(rt, alloc, SENT);
    let told = joined(rt, alloc, TOLD);
    let left = sent.as_slice();
    let mut reader = HaltingReader { left, away, hitch };
    expect_session(rt, alloc, &mut *primary, &mut reader, Ok(()), &told);
}

// The 66 bytes take 33 reads, and one more is the end.
#[test]
fn a_read_with_a_hitch(rt: HostRuntime) {
    for away in 1..35u32 {
        halt_at(&rt, rt.alloc(), away, Hitch::Short);
        halt_at(&rt, rt.alloc(), away, Hitch::Interrupted);
    }
}

// Checks the end of a session whose client sends nothing, and whose reads are interrupted this
// often before its end.
fn expect_after(rt: &impl Abort, alloc: Global, reads: u32, ends: Result<(), SessionFault>) {
    let mut primary = opened(rt, alloc);
    let mut reader = InterruptedReader { reads };
    expect_session(rt, alloc, &mut *primary, &mut reader, ends, b"");
}

#[test]
fn the_last_read_that_a_session_may_take(rt: HostRuntime) {
    expect_after(&rt, rt.alloc(), 999_999_999, Ok(()));
}

#[test]
fn one_read_more_than_a_session_may_take(rt: HostRuntime) {
    let ends = Err(SessionFault::Device);
    expect_after(&rt, rt.alloc(), 1_000_000_000, ends);
}
