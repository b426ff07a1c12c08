//! Followers of a bank that is served.
ghost use Rattle.std.specs.Prelude.{◌≡◌, ◌≤◌, ◌<◌, ◌+◌};
ghost use Rattle.sb_calls.specs.declared.nodes.TheConstants.{REPLICAS};

use crate::bank::{OPENING, OTHER_OPENING, expect, opened, opened_at};
use crate::wire::{BALANCE, DEPOSIT, DONE, FLUSH, SHOWN, serve};
use bank_server::{Followers, Primary, ReadyFollowers, RunFault, StrayReason, with_followers};
use sb_checkpoint::MemoryStore;
use sb_rows::Name;
use std::alloc::Global;
use std::process::Abort;
use std::sync::Wait;
use std::thread::Threads;

// What two clients send.
const ONE_DEPOSIT: &[&[u8]] = &[DEPOSIT, FLUSH];

const QUESTION: &[&[u8]] = &[BALANCE, FLUSH];

// What is sent to followers of the log of a bank that serves two clients.
#[derive(Clone, Copy)]
enum SentLog {
    // All of the log, after each session.
    All,
    // Only what the first client asked.
    First,
    // Another bank's log in the place of the first client's.
    Other,
}

// Sends a log to followers.
fn feed<R: Abort + Wait>(rt: &R, followers: &mut Followers<'_, R>, primary: &Primary<MemoryStore>) {
    expect(
        rt,
        followers.feed(primary.log()).is_ok(),
        "memory for frames",
    );
}

// Sends followers the log of a bank that served one client.
fn feed_other<R: Abort + Wait>(rt: &R, alloc: Global, followers: &mut Followers<'_, R>) {
    let mut other = opened(rt, alloc);
    serve(rt, alloc, &mut *other, QUESTION, &[SHOWN]);
    feed(rt, followers, &other);
}

// How followers compare that were sent this.
fn compared<R: Abort + Threads + Wait + Sync>(
    rt: &R,
    alloc: Global,
    followers: &mut Followers<'_, R>,
    sent_log: SentLog,
) -> Result<(), RunFault> {
    let mut primary = opened(rt, alloc);
    serve(rt, alloc, &mut *primary, ONE_DEPOSIT, &[DONE]);
    match sent_log {
        SentLog::Other => feed_other(rt, alloc, followers),
        SentLog::All | SentLog::First => feed(rt, followers, &primary),
    }
    serve(rt, alloc, &mut *primary, QUESTION, &[SHOWN]);
    match sent_log {
        SentLog::First => {}
        SentLog::All | SentLog::Other => feed(rt, followers, &primary),
    }
    followers.compare(primary.node())
}

// Checks how these followers compare after they were sent this.
fn expect_ready<R: Abort + Threads + Wait + Sync>(
    rt: &R,
    alloc: Global,
    ready: ReadyFollowers,
    sent_log: SentLog,
    wanted: Result<(), RunFault>,
) {
    let compared = with_followers(rt, alloc, ready, |followers| {
        compared(rt, alloc, followers, sent_log)
    });
    expect(rt, compared == Ok(wanted), "how they come out");
}

// The same for the followers of a bank of this many nodes, with this opening.
fn expect_compared<R: Abort + Threads + Wait + Sync>(
    rt: &R,
    alloc: Global,
    opening: &[u8],
    nodes: usize,
    sent_log: SentLog,
    wanted: Result<(), RunFault>,
) {
    assert!(rt; nodes <= 16);
    let other = opened_at(rt, alloc, opening, MemoryStore::new(alloc));
    let ready = ReadyFollowers::open(alloc, other.node(), nodes, 0).expect(rt, "followers");
    expect_ready(rt, alloc, ready, sent_log, wanted);
}

// The same for a bank of one node, which has no followers, and for banks of two and of sixteen
// nodes.
fn expect_strayed<R: Abort + Threads + Wait + Sync>(
    rt: &R,
    alloc: Global,
    opening: &[u8],
    sent_log: SentLog,
    reason: &StrayReason,
) {
    expect_compared(rt, alloc, opening, 1, sent_log, Ok(()));
    let first = Err(RunFault::Strayed(1, *reason));
    expect_compared(rt, alloc, opening, 2, sent_log, first);
    let first = Err(RunFault::Strayed(1, *reason));
    expect_compared(rt, alloc, opening, 16, sent_log, first);
}

#[test]
fn sent_after_each_session(rt: HostRuntime) {
    for nodes in [1, 2, 16] {
        expect_compared(&rt, rt.alloc(), OPENING, nodes, SentLog::All, Ok(()));
    }
}

#[test]
fn last_session_not_sent(rt: HostRuntime) {
    let reason = StrayReason::Entry(2);
    expect_strayed(&rt, rt.alloc(), OPENING, SentLog::First, &reason);
}

#[test]
fn another_log_sent(rt: HostRuntime) {
    let reason = StrayReason::Entry(1);
    expect_strayed(&rt, rt.alloc(), OPENING, SentLog::Other, &reason);
}

#[test]
fn opened_otherwise(rt: HostRuntime) {
    let bob = StrayReason::Customer(Name::new(b"bob").expect(&rt, "a name"));
    expect_strayed(&rt, rt.alloc(), OTHER_OPENING, SentLog::All, &bob);
}

/// Adds a follower that begins with this opening.
pub(crate) fn add_follower(
    rt: &impl Abort,
    alloc: Global,
    ready: &mut ReadyFollowers,
    opening: &[u8],
)
    requires some { 1 ≤ ready.old.nodes }
    requires limit { ready.old.nodes < REPLICAS }
    ensures { ready.new.nodes ≡ ready.old.nodes + 1 }
{
    let node = opened_at(rt, alloc, opening, MemoryStore::new(alloc));
    ready.add(alloc, node.node(), 0).expect(rt, "a follower");
}

// Three followers, of which only the second began otherwise: each is sent the log, and each is
// compared.
#[test]
fn only_the_second_strays(rt: HostRuntime) {
    let alloc = rt.alloc();
    let mut ready = ReadyFollowers::new(alloc);
    add_follower(&rt, alloc, &mut ready, OPENING);
    add_follower(&rt, alloc, &mut ready, OTHER_OPENING);
    add_follower(&rt, alloc, &mut ready, OPENING);
    let bob = StrayReason::Customer(Name::new(b"bob").expect(&rt, "a name"));
    let wanted = Err(RunFault::Strayed(2, bob));
    expect_ready(&rt, alloc, ready, SentLog::All, wanted);
}
