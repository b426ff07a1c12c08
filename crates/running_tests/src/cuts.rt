//! Cuts of a board.
use crate::bank::Bank;
use sb_amount::Cents;
use sb_calls::Call;
use sb_rows::Name;
use std::process::Abort;

// Deposits to the three in turn, each of as many cents as its number.
fn submit_deposits(rt: &impl Abort, bank: &mut Bank, from: u32, to: u32) {
    let alice = Name::new(b"alice").expect(rt, "a name");
    let bob = Name::new(b"bob").expect(rt, "a name");
    let carol = Name::new(b"carol").expect(rt, "a name");
    for number in from..=to {
        let cents = Cents::new(i64::from(number)).expect(rt, "few cents");
        let name = match number % 3 {
            0 => alice,
            1 => bob,
            _ => carol,
        };
        bank.submits(rt, u64::from(number), &Call::DepositChecking(name, cents));
    }
}

// Runs this many deposits alone.
fn run_deposits(rt: &impl Abort, bank: &mut Bank, deposits: u32) {
    submit_deposits(rt, bank, 1, deposits);
    for _ in 0..deposits {
        bank.runs_last(rt);
    }
}

// All of one customer's deposits are run before the next one's, so that some after the cut run
// before some that the cut covers. Eight more of the same customer follow the last that the cut
// covers.
#[test]
fn a_cut_settles_while_later_numbers_run(rt: HostRuntime) {
    let mut alone = Bank::open(&rt, rt.alloc());
    run_deposits(&rt, &mut alone, 1_000);
    let mut bank = Bank::open(&rt, rt.alloc());
    submit_deposits(&rt, &mut bank, 1, 1_000);
    bank.cuts(&rt);
    submit_deposits(&rt, &mut bank, 1_001, 1_024);
    settles(&rt, &mut bank, &alone);
}

// Once only the last eight are left, which came after the cut, its columns are those of the other
// board.
fn settles(rt: &impl Abort, bank: &mut Bank, alone: &Bank) {
    for _ in 0..1_016 {
        bank.has_no_cut_columns(rt);
        bank.runs_last(rt);
    }
    assert!(rt; !bank.idle());
    for _ in 0..8 {
        bank.has_cut_of(rt, alone);
        bank.runs_last(rt);
    }
    assert!(rt; bank.idle());
    bank.has_cut_of(rt, alone);
}
