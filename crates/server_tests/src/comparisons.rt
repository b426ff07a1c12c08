//! Followers that are compared while a bank goes on.
use crate::bank::{expect, opened_at};
use crate::followers::add_follower;
use crate::wire::{BALANCE, FLUSH, push_with};
use bank_server::{
    Followers, Primary, ReadyFollowers, RunFault, StrayReason, serve_session, with_followers,
};
use cown_workers::InlineCrew;
use sb_checkpoint::MemoryStore;
use std::alloc::Global;
use std::process::Abort;
use std::sync::Wait;
use std::thread::Threads;

const OPENING: &[u8] = b"alice 100.00 50.00\ndave 1.00 1.00\nbegin\n";

// Another name for the same balances: what differs is the reply to a call that names dave.
const OTHER_NAME: &[u8] = b"alice 100.00 50.00\ndora 1.00 1.00\nbegin\n";

// Client 7 deposits 1.00 for dave.
const DAVES: &[u8] =
    b"\x00\x17\x01\x00\x00\x00\x07\x00\x00\x00\x01\x02\x04dave\x00\x00\x00\x00\x00\x00\x00\x64";

// What is asked, and how often: the followers are compared after 65,536 entries, and after as many again.
const STEPS: [(&[u8], u32); 5] = [
    (BALANCE, 65_535),
    (BALANCE, 1),
    (DAVES, 1),
    (BALANCE, 65_534),
    (BALANCE, 1),
];

// Has a client ask this that often, sends it to the followers, and compares if that is due.
fn go_on<R: Abort + Wait>(
    rt: &R,
    alloc: Global,
    followers: &mut Followers<'_, R>,
    primary: &mut Primary<MemoryStore>,
    asked: &[u8],
    times: u32,
) -> Result<(), RunFault> {
    let before = primary.log().length() as u32;
    let mut sent = Vec::new(alloc);
    for ask in 1..times.saturating_add(1) {
        push_with(rt, asked, before.wrapping_add(ask), &mut sent);
    }
    sent.extend_from_slice(FLUSH).expect(rt, "memory for bytes");
    let mut reader = sent.as_slice();
    let mut told: Vec<u8> = Vec::new(alloc);
    let ended = serve_session(alloc, &mut reader, &mut told, primary, &mut InlineCrew);
    expect(rt, ended == Ok(()), "a session");
    expect(
        rt,
        followers.feed(primary.log()).is_ok(),
        "memory for frames",
    );
    followers.compare_if_due(primary.node())
}

// How followers come out of the steps: of the last, if the others are well, and then of 65,536 entries
// more, and of the end.
fn compared<R: Abort + Threads + Wait + Sync>(
    rt: &R,
    alloc: Global,
    followers: &mut Followers<'_, R>,
) -> Result<(), RunFault> {
    let mut primary = opened_at(rt, alloc, OPENING, MemoryStore::new(alloc));
    let mut last = Ok(());
    for (asked, times) in STEPS {
        expect(rt, last == Ok(()), "a comparison that isn't due");
        last = go_on(rt, alloc, followers, &mut *primary, asked, times);
    }
    last?;
    go_on(rt, alloc, followers, &mut *primary, BALANCE, 65_536)?;
    go_on(rt, alloc, followers, &mut *primary, BALANCE, 1)?;
    followers.compare(primary.node())
}

// Checks how three followers come out, of which the second begins with this opening.
fn expect_compared<R: Abort + Threads + Wait + Sync>(
    rt: &R,
    alloc: Global,
    second: &[u8],
    wanted: Result<(), RunFault>,
) {
    let mut ready = ReadyFollowers::new(alloc);
    add_follower(rt, alloc, &mut ready, OPENING);
    add_follower(rt, alloc, &mut ready, second);
    add_follower(rt, alloc, &mut ready, OPENING);
    let found = with_followers(rt, alloc, ready, |followers| compared(rt, alloc, followers));
    expect(rt, found == Ok(wanted), "how they come out");
}

#[test]
fn compared_again_and_again(rt: HostRuntime) {
    expect_compared(&rt, rt.alloc(), OPENING, Ok(()));
}

// It differs behind the first comparison, and the second finds out.
#[test]
fn only_the_second_strays_later(rt: HostRuntime) {
    let strayed = RunFault::Strayed(2, StrayReason::Entry(65_537));
    expect_compared(&rt, rt.alloc(), OTHER_NAME, Err(strayed));
}
