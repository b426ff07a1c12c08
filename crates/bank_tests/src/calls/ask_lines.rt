//! Asking lines, with keys and without, and lines that aren't.
use crate::fixtures::{cents, expect, name};
use sb_calls::{AskLine, Call, CallFault, push_ask, read_ask};
use std::alloc::Global;
use std::process::Abort;

// Checks that a line asks for this call, with this client's request as its key or without a key,
// and that it is appended to a list.
fn expect_asked(rt: &impl Abort, alloc: Global, line: &str, key: Option<(u32, u32)>, call: &Call) {
    let asked = read_ask(line.as_bytes()).expect(rt, "an asking line");
    expect(rt, asked.call == *call, line);
    let found = asked.key.map(|key| (key.client, key.request));
    expect(rt, found == key, line);
    let mut asks: Vec<AskLine> = Vec::with_capacity(alloc, 1).expect(rt, "ample memory");
    expect(rt, push_ask(line.as_bytes(), &mut asks).is_ok(), line);
    expect(rt, asks.get(0) == Some(&asked), line);
}

#[test]
fn lines_that_are_read(rt: HostRuntime) {
    let (alice, bob) = (name(&rt, "alice"), name(&rt, "bob"));
    let (five, twenty) = (cents(&rt, 500), cents(&rt, 2_000));
    let most = Some((4294967295, 4294967295));
    for (line, key, call) in [
        ("balance alice", None, Call::Balance(alice)),
        ("deposit bob 5.00", None, Call::DepositChecking(bob, five)),
        (
            "savings alice -10.00",
            None,
            Call::TransactSavings(alice, cents(&rt, -1000)),
        ),
        ("check bob 20.00", None, Call::WriteCheck(bob, twenty)),
        ("amalgamate alice bob", None, Call::Amalgamate(alice, bob)),
        (
            "ask 1 0 pay bob alice 20.00",
            Some((1, 0)),
            Call::SendPayment(bob, alice, twenty),
        ),
        (
            "ask 4294967295 4294967295 balance alice",
            most,
            Call::Balance(alice),
        ),
    ] {
        expect_asked(&rt, rt.alloc(), line, key, &call);
    }
}

const FAULTS: &[(&str, CallFault)] = &[
    ("transfer alice bob", CallFault::UnknownVerb),
    ("ask 1 1", CallFault::UnknownVerb),
    ("ask 1", CallFault::WrongWords),
    ("balance alice bob", CallFault::WrongWords),
    ("deposit Alice x", CallFault::BadName),
    ("pay alice bob 1", CallFault::BadMoney),
    ("ask 0 1 balance alice", CallFault::BadNumber),
    ("ask 01 1 balance alice", CallFault::BadNumber),
    ("ask 1 4294967296 balance alice", CallFault::BadNumber),
];

// Checks that a line isn't an asking line, with this fault.
fn expect_fault(rt: &impl Abort, line: &str, fault: CallFault) {
    expect(rt, read_ask(line.as_bytes()).err() == Some(fault), line);
}

#[test]
fn lines_at_fault(rt: HostRuntime) {
    for (line, fault) in FAULTS {
        expect_fault(&rt, line, *fault);
    }
}
