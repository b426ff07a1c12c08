//! What clients send, and what is sent to them.
use crate::bank::{expect, expect_bytes, joined, opened};
use crate::devices::BytewiseReader;
use crate::wire::{
    BALANCE, DEPOSIT, DONE, ENTRY, FLUSH, HAVE, MISMATCH, OTHER, SHOWN, expect_session, frames,
};
use bank_server::{Primary, SessionFault, serve_session};
use cown_board::Runs;
use cown_workers::{Crew, InlineCrew, OpenGate, with_crew};
use sb_checkpoint::MemoryStore;
use sb_frames::FrameFault;
use std::alloc::Global;
use std::process::Abort;
use std::sync::Wait;
use std::thread::Threads;
use std::time::Clock;

// What a client sends, how its session ends, and what is sent to it.
#[derive(Clone, Copy)]
struct Session<'a> {
    sent: &'a [&'a [u8]],
    ends: Result<(), SessionFault>,
    told: &'a [&'a [u8]],
}

// Serves a client by reads of one byte, and compares.
fn serve_bytewise<C: Crew>(
    rt: &impl Abort,
    alloc: Global,
    session: &Session,
    primary: &mut Primary<MemoryStore>,
    crew: &mut C,
) {
    let sent = joined(rt, alloc, session.sent);
    let told = joined(rt, alloc, session.told);
    let mut reader = BytewiseReader {
        left: &sent,
        reads: 1_000,
        fails: true,
    };
    let mut written: Vec<u8> = Vec::new(alloc);
    let ended = serve_session(alloc, &mut reader, &mut written, primary, crew);
    expect(rt, ended == session.ends, "how the session ends");
    expect_bytes(rt, &written, &told, "what the client is told");
}

// Serves one client after another. Answers the length of the log.
fn serve_all<C: Crew>(rt: &impl Abort, alloc: Global, sessions: &[Session], crew: &mut C) -> u64 {
    let mut primary = opened(rt, alloc);
    for session in sessions {
        serve_bytewise(rt, alloc, session, &mut primary, crew);
    }
    let carried_out = primary.node().length();
    expect(rt, carried_out == primary.log().length(), "all carried out");
    carried_out
}

// The same with no workers and with four.
fn expect_sessions(
    rt: &(impl Abort + Threads + Wait + Clock + Sync),
    alloc: Global,
    sessions: &[Session],
    length: u64,
) {
    let in_place = serve_all(rt, alloc, sessions, &mut InlineCrew);
    expect(rt, in_place == length, "in place");
    let by_four = with_crew(rt, alloc, 4, &OpenGate, |crew| {
        serve_all(rt, alloc, sessions, crew)
    });
    expect(rt, by_four == Ok(length), "by four workers");
}

const ASKED_AGAIN: &[Session] = &[
    Session {
        sent: &[BALANCE, DEPOSIT, FLUSH, BALANCE, FLUSH],
        ends: Ok(()),
        told: &[SHOWN, DONE, SHOWN],
    },
    Session {
        sent: &[OTHER, FLUSH],
        ends: Ok(()),
        told: &[MISMATCH],
    },
];

#[test]
fn asked_and_answered_again(rt: HostRuntime) {
    expect_sessions(&rt, rt.alloc(), ASKED_AGAIN, 2);
}

const NO_FLUSH_FOLLOWS: &[Session] = &[
    Session {
        sent: &[],
        ends: Ok(()),
        told: &[],
    },
    Session {
        sent: &[BALANCE, FLUSH, DEPOSIT],
        ends: Ok(()),
        told: &[SHOWN],
    },
    Session {
        sent: &[FLUSH, FLUSH],
        ends: Ok(()),
        told: &[],
    },
    // It gets the outcome when it asks again.
    Session {
        sent: &[DEPOSIT, FLUSH],
        ends: Ok(()),
        told: &[DONE],
    },
];

#[test]
fn asks_that_no_flush_follows(rt: HostRuntime) {
    expect_sessions(&rt, rt.alloc(), NO_FLUSH_FOLLOWS, 2);
}

#[test]
fn frames_that_no_client_sends(rt: HostRuntime) {
    // An entry, an outcome, and a checkpoint's length.
    for frame in [ENTRY, DONE, HAVE] {
        let sessions = [
            Session {
                sent: &[BALANCE, FLUSH, DEPOSIT, frame, FLUSH],
                ends: Err(SessionFault::Unexpected),
                told: &[SHOWN],
            },
            Session {
                sent: &[DEPOSIT, FLUSH],
                ends: Ok(()),
                told: &[DONE],
            },
        ];
        expect_sessions(&rt, rt.alloc(), &sessions, 2);
    }
}

const NO_FRAME: &[Session] = &[
    Session {
        sent: &[BALANCE, FLUSH, b"GET / HTTP/1.1\r\n\r\n"],
        ends: Err(SessionFault::Frame(FrameFault::BadLength)),
        told: &[SHOWN],
    },
    Session {
        sent: &[BALANCE, DEPOSIT, FLUSH],
        ends: Ok(()),
        told: &[SHOWN, DONE],
    },
];

#[test]
fn bytes_that_are_no_frame(rt: HostRuntime) {
    expect_sessions(&rt, rt.alloc(), NO_FRAME, 2);
}

#[test]
fn a_frame_that_is_not_whole(rt: HostRuntime) {
    for end in 1..18usize {
        let first = Session {
            sent: &[DEPOSIT, FLUSH, &BALANCE[..end]],
            ends: Err(SessionFault::Frame(FrameFault::Short)),
            told: &[DONE],
        };
        let length = serve_all(&rt, rt.alloc(), &[first], &mut InlineCrew);
        expect(&rt, length == 1, "the log");
    }
}

#[test]
fn more_asks_than_may_be_unfinished(rt: HostRuntime) {
    let sent = frames(&rt, rt.alloc(), 0..3_000, DEPOSIT, FLUSH);
    let told = frames(&rt, rt.alloc(), 0..3_000, DONE, b"");
    let mut primary = opened(&rt, rt.alloc());
    let reader = &mut sent.as_slice();
    expect_session(&rt, rt.alloc(), &mut *primary, reader, Ok(()), &told);
    expect(&rt, primary.node().length() == 3_000, "all carried out");
}
