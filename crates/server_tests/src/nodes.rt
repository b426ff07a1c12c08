//! Node 0 executes a whole log, with followers that have its opening, or another one.
use crate::bank::{OPENING, OTHER_OPENING, expect, opened, opened_at};
use bank_server::{ReadyFollowers, RunFault, StrayReason, ask_lines, carry_out_log};
use cown_workers::OpenGate;
use sb_checkpoint::MemoryStore;
use sb_rows::Name;
use std::alloc::Global;
use std::process::Abort;
use std::sync::Wait;
use std::thread::Threads;
use std::time::Clock;

const LINES: &[u8] = b"balance alice\ndeposit bob 5.00\n";

// The fault, if there is one, with followers at this opening.
fn fault_of(
    rt: &(impl Abort + Threads + Wait + Clock + Sync),
    alloc: Global,
    beside: &[u8],
    nodes: usize,
    workers: usize,
) -> Option<RunFault> {
    assert!(rt; nodes <= 16 && workers <= 16);
    let other = opened_at(rt, alloc, beside, MemoryStore::new(alloc));
    let followers = ReadyFollowers::open(alloc, other.node(), nodes, 2).expect(rt, "followers");
    let mut primary = opened(rt, alloc);
    ask_lines(alloc, LINES, 1, &mut *primary).expect(rt, "asking lines");
    let primary = Box::into_inner(primary);
    carry_out_log(rt, alloc, primary, followers, workers, &OpenGate).err()
}

// Checks that one node, which has no followers, has no fault, and that two and sixteen have this
// one.
fn expect_fault(
    rt: &(impl Abort + Threads + Wait + Clock + Sync),
    alloc: Global,
    beside: &[u8],
    wanted: Option<RunFault>,
) {
    for workers in [0, 2] {
        let alone = fault_of(rt, alloc, beside, 1, workers);
        expect(rt, alone == None, "one node");
        for nodes in [2, 16] {
            let fault = fault_of(rt, alloc, beside, nodes, workers);
            expect(rt, fault == wanted, "how it ends");
        }
    }
}

#[test]
fn followers_that_began_as_node_0(rt: HostRuntime) {
    expect_fault(&rt, rt.alloc(), OPENING, None);
}

#[test]
fn followers_that_began_otherwise(rt: HostRuntime) {
    let bob = Name::new(b"bob").expect(&rt, "a name");
    let strayed = RunFault::Strayed(1, StrayReason::Customer(bob));
    expect_fault(&rt, rt.alloc(), OTHER_OPENING, Some(strayed));
}
