//! Workers that sleep.
ghost use Rattle.std.specs.Prelude.{◌≤◌};

use crate::bank::{board_of, give_all, has_balances};
use crate::gates::{CallOrder, Counter, OwnerAdmittingGate};
use cown_workers::{Crew, drain, with_crew};
use std::alloc::Global;
use std::process::Abort;
use std::sync::Wait;
use std::thread;
use std::thread::Threads;
use std::time::{Clock, Duration};

#[test]
fn calls_that_come_while_all_sleep_are_executed_by_workers(rt: HostRuntime) {
    wakes(&rt, rt.alloc(), 1);
    wakes(&rt, rt.alloc(), 16);
}

// This many workers execute calls that come while all of them sleep. The gate doesn't admit the
// owner, and counts what its crew executes.
fn wakes<R: Threads + Wait + Clock + Sync + Abort>(rt: &R, alloc: Global, workers: usize)
    requires at_least_one { 1 ≤ workers }
    requires limit { workers ≤ 16 }
{
    let gate = Counter::default();
    let ended = with_crew(rt, alloc, workers, &gate, move |crew| {
        carries_out_late_calls(rt, alloc, crew)
    });
    assert!(rt; ended.is_ok());
    assert!(rt; gate.carried_out() == 10, "{workers}");
}

// Ten boards, each of which comes after the crew had nothing to do for a while, are executed.
fn carries_out_late_calls<R: Clock + Abort>(rt: &R, alloc: Global, crew: &mut impl Crew) {
    for _ in 0..10 {
        thread::sleep(rt, Duration::from_millis(5));
        let mut board = board_of(rt, alloc, &["deposit bob 0.01"]);
        assert!(rt; drain(&mut *board, crew).is_ok());
        assert!(rt; has_balances(&board, [10_000, 0, 1_000], [5_000, 2_001, 0]));
    }
}

// An owner that helps signals nothing unless it waits.
#[test]
fn a_sleep_ends_by_itself(rt: HostRuntime) {
    let gate = CallOrder::default();
    let ended = with_crew(&rt, rt.alloc(), 1, &OwnerAdmittingGate(&gate), |crew| {
        thread::sleep(&rt, Duration::from_millis(20));
        let mut board = board_of(&rt, rt.alloc(), &["balance zed"; 4]);
        give_all(&mut board, crew);
        sees_all_calls(&rt, &gate);
    });
    assert!(rt; ended.is_ok());
}

// All four jobs are executed while the owner sleeps.
fn sees_all_calls<R: Clock + Abort>(rt: &R, gate: &CallOrder) {
    for _ in 0..10_000 {
        if gate.called_in_order() {
            return;
        }
        thread::sleep(rt, Duration::from_millis(1));
    }
    panic!(rt; "nobody woke");
}
