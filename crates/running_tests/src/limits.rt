//! How much a board takes, and its answers at the limit.
use crate::bank::{Bank, OPENING, Step, earlier_replies};
use cown_board::SubmitFault;
use sb_calls::{Reply, read_call};
use std::alloc::Global;
use std::process::Abort;

// Submits the numbers from one to another; each is a deposit of a cent to alice.
fn deposits(rt: &impl Abort, bank: &mut Bank, from: u64, to: u64) {
    for number in from..=to {
        bank.plays(rt, &[Step::Submit(number, "deposit alice 0.01")]);
    }
}

fn is_refused(rt: &impl Abort, bank: &mut Bank, fault: SubmitFault) {
    let length = bank.length();
    let call = read_call(b"balance alice").expect(rt, "a call");
    assert!(rt; bank.submit(&call) == Err(fault), "{fault}");
    assert!(rt; bank.length() == length);
}

#[test]
fn a_thousand_and_twenty_four_may_be_unfinished(rt: HostRuntime) {
    let mut bank = Bank::open(&rt, rt.alloc());
    deposits(&rt, &mut bank, 1, 1_024);
    is_refused(&rt, &mut bank, SubmitFault::Busy);
    bank.plays(&rt, &[Step::TakeNone(1), Step::Take(0, 1)]);
    is_refused(&rt, &mut bank, SubmitFault::Busy);
    bank.plays(&rt, &[Step::Finish(1, Reply::Done)]);
    deposits(&rt, &mut bank, 1_025, 1_025);
    is_refused(&rt, &mut bank, SubmitFault::Busy);
    assert!(rt; bank.length() == 1_025);
}

// A board with this many earlier replies.
fn open_after_many(rt: &impl Abort, alloc: Global, numbers: usize) -> Box<Bank> {
    let replies = earlier_replies(rt, alloc, numbers);
    Bank::open_with(rt, alloc, OPENING, replies)
}

#[test]
fn a_log_of_a_million_is_full(rt: HostRuntime) {
    let mut full = open_after_many(&rt, rt.alloc(), 1_000_000);
    is_refused(&rt, &mut full, SubmitFault::LogFull);
    assert!(rt; full.idle());
    let mut last = open_after_many(&rt, rt.alloc(), 999_999);
    last.plays(&rt, &[Step::Submit(1_000_000, "balance alice")]);
    is_refused(&rt, &mut last, SubmitFault::LogFull);
    assert!(rt; last.length() == 1_000_000);
}

#[test]
fn room_made_ahead_changes_nothing(rt: HostRuntime) {
    let mut bank = Bank::open(&rt, rt.alloc());
    bank.plays(
        &rt,
        &[
            Step::Submit(1, "deposit alice 1.00"),
            Step::Submit(2, "deposit bob 1.00"),
            Step::Submit(3, "amalgamate alice bob"),
            Step::Submit(4, "balance alice"),
            Step::Take(0, 1),
        ],
    );
    assert!(rt; bank.reserves(2_000));
    assert!(rt; !bank.reserves(usize::MAX));
    assert!(rt; bank.length() == 4);
    bank.plays(
        &rt,
        &[
            Step::Finish(1, Reply::Done),
            Step::Run(2, Reply::Done),
            Step::Submit(5, "balance carol"),
        ],
    );
}
