//! A log, and the node that executes it.
use crate::bank::{expect, opened};
use crate::clients::ask_unflushed;
use bank_server::{Primary, Standing, ask_lines};
use cown_board::Runs;
use cown_workers::InlineCrew;
use sb_calls::{Reply, read_call};
use sb_checkpoint::MemoryStore;
use sb_frames::{Frame, encode};
use std::alloc::Global;
use std::process::Abort;

// The standings of lines that get this many numbers.
fn standings(rt: &impl Abort, alloc: Global, text: &[u8], numbers: u64) -> Vec<Standing> {
    assert!(rt; text.len() < 1_000);
    let mut primary = opened(rt, alloc);
    let standings = ask_lines(alloc, text, 1, &mut *primary).expect(rt, "asking lines");
    expect(rt, primary.log().length() == numbers, "the log");
    standings
}

#[test]
fn a_repeat_stands_as_its_first_ask(rt: HostRuntime) {
    let text = b"ask 7 1 deposit bob 5.00\nask 7 2 balance bob\nask 7 1 deposit bob 5.00\n\
          ask 7 1 balance bob\n";
    let standings = standings(&rt, rt.alloc(), text, 2);
    assert!(&rt; standings.len() == 4);
    let (first, second, again, other) = (standings[0], standings[1], standings[2], standings[3]);
    expect(&rt, first != second, "another request");
    expect(&rt, first == again, "the same request");
    expect(
        &rt,
        other != first && other != Standing::LogFull,
        "another call",
    );
}

// Appends client 7's ask by this request.
fn push_ask(rt: &impl Abort, request: u32, line: &str, out: &mut Vec<u8>) {
    let call = read_call(line.as_bytes()).expect(rt, "a call");
    let client = 7;
    let frame = encode(&Frame::Ask {
        client,
        request,
        call,
    });
    out.extend_from_slice(&frame).expect(rt, "memory for bytes");
}

// A client sends these asks, and no flush.
fn ask_all(
    rt: &impl Abort,
    alloc: Global,
    primary: &mut Primary<MemoryStore>,
    asks: &[(u32, &str)],
) {
    let mut sent = Vec::new(alloc);
    for (request, line) in asks {
        push_ask(rt, *request, line, &mut sent);
    }
    ask_unflushed(rt, alloc, primary, &sent);
}

// The same for deposits of a cent by these requests.
fn ask_deposits(
    rt: &impl Abort,
    alloc: Global,
    primary: &mut Primary<MemoryStore>,
    first: u32,
    end: u32,
) {
    let mut sent = Vec::new(alloc);
    for request in first..end {
        push_ask(rt, request, "deposit bob 0.01", &mut sent);
    }
    ask_unflushed(rt, alloc, primary, &sent);
}

// Checks the number of entries, which the node has too, and whether it has finished all of them.
fn expect_entries(rt: &impl Abort, primary: &Primary<MemoryStore>, count: u64, is_idle: bool) {
    expect(rt, primary.log().length() == count, "the log");
    expect(rt, primary.node().length() == count, "the node");
    expect(rt, primary.node().idle() == is_idle, "what it has finished");
}

// Checks the node's reply to an entry.
fn expect_reply(rt: &impl Abort, primary: &Primary<MemoryStore>, number: u64, wanted: Reply) {
    expect(rt, primary.node().reply(number) == Some(wanted), "a reply");
}

fn settle(rt: &impl Abort, primary: &mut Primary<MemoryStore>) {
    expect(
        rt,
        primary.settle(&mut InlineCrew) == Ok(()),
        "all carried out",
    );
}

// Two asks, then the first of them again, and another call under its key.
const ASKS: &[(u32, &str)] = &[
    (1, "deposit bob 5.00"),
    (2, "balance bob"),
    (1, "deposit bob 5.00"),
    (1, "balance bob"),
];

#[test]
fn what_was_asked_is_carried_out_once_settled(rt: HostRuntime) {
    let mut primary = opened(&rt, rt.alloc());
    ask_all(&rt, rt.alloc(), &mut primary, ASKS);
    expect_entries(&rt, &primary, 2, false);
    settle(&rt, &mut primary);
    expect_entries(&rt, &primary, 2, true);
    expect_reply(&rt, &primary, 1, Reply::Done);
    expect_reply(&rt, &primary, 2, Reply::Shown(2_500));
}

const LAST_ASK: &[(u32, &str)] = &[(3_000, "balance bob")];

#[test]
fn more_asks_than_may_be_unfinished(rt: HostRuntime) {
    let mut primary = opened(&rt, rt.alloc());
    ask_deposits(&rt, rt.alloc(), &mut primary, 0, 2_000);
    expect_entries(&rt, &primary, 2_000, false);
    ask_deposits(&rt, rt.alloc(), &mut primary, 2_000, 3_000);
    expect_entries(&rt, &primary, 3_000, false);
    settle(&rt, &mut primary);
    expect_entries(&rt, &primary, 3_000, true);
    ask_all(&rt, rt.alloc(), &mut primary, LAST_ASK);
    settle(&rt, &mut primary);
    expect_entries(&rt, &primary, 3_001, true);
    expect_reply(&rt, &primary, 3_001, Reply::Shown(5_000));
}
