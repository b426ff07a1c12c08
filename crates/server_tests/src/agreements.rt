//! Replicas that agree, and replicas that don't.
use crate::bank::{OPENING, expect};
use bank_server::agree;
use cown_workers::{InlineCrew, drain};
use sb_calls::read_call;
use sb_checkpoint::MemoryStore;
use sb_frames::{Frame, encode};
use sb_replica::{Heard, Replica};
use sb_rows::read_opening;
use std::alloc::Global;
use std::process::Abort;

// A replica at the opening of three customers.
fn opened(rt: &impl Abort, alloc: Global) -> Box<Replica<MemoryStore>> {
    let opening = read_opening(alloc, OPENING).expect(rt, "an opening");
    let store = MemoryStore::new(alloc);
    let replica = Replica::open(alloc, 0, opening.directory, opening.columns, store).expect(
        rt,
        "memory for a replica",
    );
    Box::new(alloc, replica).expect(rt, "memory for a box")
}

// A call comes to a replica.
fn hear(rt: &impl Abort, replica: &mut Replica<MemoryStore>, number: u64, line: &str) {
    let call = read_call(line.as_bytes()).expect(rt, "a call");
    let bytes = encode(&Frame::Entry { number, call });
    let heard = replica.on_frame(&bytes);
    expect(rt, heard == Ok(Heard::Accepted(number)), line);
}

// These calls come to a replica that has none yet.
fn hear_all(rt: &impl Abort, replica: &mut Replica<MemoryStore>, calls: &[&str]) {
    let mut number = 0u64;
    for line in calls {
        number = number.saturating_add(1);
        hear(rt, replica, number, line);
    }
}

// A replica that executed these calls.
fn replica_after(rt: &impl Abort, alloc: Global, calls: &[&str]) -> Box<Replica<MemoryStore>> {
    let mut replica = opened(rt, alloc);
    hear_all(rt, &mut replica, calls);
    drain(&mut *replica, &mut InlineCrew).expect(rt, "an idle replica");
    replica
}

// Checks whether two replicas agree; it is the same in both directions.
fn expect_agreement(
    rt: &impl Abort,
    one: &Replica<MemoryStore>,
    other: &Replica<MemoryStore>,
    wanted: bool,
    case: &str,
) {
    expect(rt, agree(one, other) == Ok(wanted), case);
    expect(rt, agree(other, one) == Ok(wanted), case);
}

// The same for two replicas that executed these calls.
fn expect_after(
    rt: &impl Abort,
    alloc: Global,
    calls: &[&str],
    others: &[&str],
    wanted: bool,
    case: &str,
) {
    let one = replica_after(rt, alloc, calls);
    let other = replica_after(rt, alloc, others);
    expect_agreement(rt, &one, &other, wanted, case);
}

const DEPOSIT: &[&str] = &["deposit alice 1.00"];

const OTHER_DEPOSIT: &[&str] = &["deposit bob 1.00"];

const BALANCE: &[&str] = &["balance alice"];

const OTHER_BALANCE: &[&str] = &["balance bob"];

const TWO_BALANCES: &[&str] = &["balance alice", "balance alice"];

const OVERDRAFT: &[&str] = &["check bob 20.01", "balance bob"];

#[test]
fn calls_that_come_to_the_same(rt: HostRuntime) {
    expect_after(&rt, rt.alloc(), DEPOSIT, DEPOSIT, true, "one call");
    expect_after(
        &rt,
        rt.alloc(),
        DEPOSIT,
        OTHER_DEPOSIT,
        false,
        "two deposits",
    );
    // The same columns, but another reply.
    expect_after(
        &rt,
        rt.alloc(),
        BALANCE,
        OTHER_BALANCE,
        false,
        "two replies",
    );
    expect_after(&rt, rt.alloc(), BALANCE, TWO_BALANCES, false, "two lengths");
}

#[test]
fn one_that_is_not_idle(rt: HostRuntime) {
    let one = replica_after(&rt, rt.alloc(), BALANCE);
    let mut other = opened(&rt, rt.alloc());
    hear_all(&rt, &mut other, BALANCE);
    expect_agreement(&rt, &one, &other, false, "not idle");
}

// Restarts a replica from a checkpoint of this many entries.
fn restart(rt: &impl Abort, replica: &mut Replica<MemoryStore>, entries: u64) {
    expect(rt, replica.mark() == Ok(entries), "a checkpoint");
    expect(rt, replica.restart() == Ok(entries), "a restart");
}

#[test]
fn one_that_was_restarted_from_its_checkpoint(rt: HostRuntime) {
    let one = replica_after(&rt, rt.alloc(), OVERDRAFT);
    let mut other = replica_after(&rt, rt.alloc(), OVERDRAFT);
    restart(&rt, &mut other, 2);
    expect_agreement(&rt, &one, &other, true, "restarted");
}
