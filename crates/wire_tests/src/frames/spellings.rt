//! Frames that are spelled as they should be, and read back.
use super::*;
use crate::fixtures::{ask, cents, entry, name, vectors, wire_reply};
use sb_calls::{Call, Reply};
use sb_frames::AskOutcome;

// Checks the frame's spelling, that each proper beginning of it is too short, and that a byte more
// isn't looked at.
fn is_spelled(rt: &impl Abort, frame: &Frame, spelling: Vec<u8>, what: &str) {
    both_ways(rt, *frame, &spelling, what);
    for end in 0..spelling.len() {
        is_refused(rt, &spelling[..end], FrameFault::Short, what);
    }
    let size = spelling.len();
    let mut longer = spelling;
    longer.push(255).expect(rt, "memory for a byte");
    assert!(rt; decode(&longer) == Ok((*frame, size)), "{what}");
}

#[test]
fn frames_worked_by_hand(rt: HostRuntime) {
    for (frame, digits) in vectors(&rt) {
        is_spelled(&rt, &frame, bytes(&rt, digits), digits);
    }
}

// Every kind of call, each after the same number, with amounts to the limit.
#[test]
fn every_call_both_ways(rt: HostRuntime) {
    let alice = name(&rt, "alice");
    let bob = name(&rt, "bob");
    for (call, body) in [
        (Call::Balance(bob), "02 0000000000000009 01 03 626f62"),
        (
            Call::DepositChecking(bob, cents(&rt, 1_000_000_000_000)),
            "02 0000000000000009 02 03 626f62 000000e8d4a51000",
        ),
        (
            Call::TransactSavings(bob, cents(&rt, -1_000_000_000_000)),
            "02 0000000000000009 03 03 626f62 ffffff172b5af000",
        ),
        (
            Call::Amalgamate(bob, alice),
            "02 0000000000000009 04 03 626f62 05 616c696365",
        ),
        (
            Call::WriteCheck(bob, cents(&rt, 256)),
            "02 0000000000000009 05 03 626f62 0000000000000100",
        ),
        (
            Call::SendPayment(bob, alice, cents(&rt, -1)),
            "02 0000000000000009 06 03 626f62 05 616c696365 ffffffffffffffff",
        ),
    ] {
        have_bodies(&rt, &[(entry(9, &call), body)]);
    }
}

// Totals go to their limit.
#[test]
fn every_reply_both_ways(rt: HostRuntime) {
    for (shown, body) in [
        (
            Reply::Shown(2_000_000_000_000),
            "04 0000000000000009 00 000001d1a94a2000",
        ),
        (
            Reply::Shown(-2_000_000_000_000),
            "04 0000000000000009 00 fffffe2e56b5e000",
        ),
        (Reply::Done, "04 0000000000000009 01 0000000000000000"),
        (Reply::Penalised, "04 0000000000000009 02 0000000000000000"),
        (Reply::NoCustomer, "04 0000000000000009 03 0000000000000000"),
        (
            Reply::SameCustomer,
            "04 0000000000000009 04 0000000000000000",
        ),
        (Reply::Negative, "04 0000000000000009 05 0000000000000000"),
        (
            Reply::WouldOverdraw,
            "04 0000000000000009 06 0000000000000000",
        ),
        (Reply::OverLimit, "04 0000000000000009 07 0000000000000000"),
    ] {
        let reply = wire_reply(&rt, shown);
        have_bodies(&rt, &[(Frame::Answer { number: 9, reply }, body)]);
    }
}

// The longest names and the greatest numbers: bodies of 52 bytes, and of 60.
#[test]
fn fields_at_the_ends_of_their_ranges(rt: HostRuntime) {
    let longest = name(&rt, "abcdefghijklmnopqrst");
    let amalgamation = Call::Amalgamate(longest, longest);
    let payment = Call::SendPayment(longest, longest, cents(&rt, -1));
    have_bodies(
        &rt,
        &[
            (
                entry(u64::MAX, &amalgamation),
                "02 ffffffffffffffff 04 \
                 14 6162636465666768696a6b6c6d6e6f7071727374 14 6162636465666768696a6b6c6d6e6f7071727374",
            ),
            (
                ask(0, u32::MAX, &payment),
                "01 00000000 ffffffff 06 \
                 14 6162636465666768696a6b6c6d6e6f7071727374 14 6162636465666768696a6b6c6d6e6f7071727374 \
                 ffffffffffffffff",
            ),
            (
                Frame::Outcome {
                    client: u32::MAX,
                    request: 0,
                    outcome: AskOutcome::LogFull,
                },
                "05 ffffffff 00000000 02 00 0000000000000000",
            ),
            (
                Frame::Outcome {
                    client: 1,
                    request: 2,
                    outcome: AskOutcome::Mismatch,
                },
                "05 00000001 00000002 01 00 0000000000000000",
            ),
            (
                Frame::Have {
                    replica: u8::MAX,
                    length: u64::MAX,
                },
                "07 ff ffffffffffffffff",
            ),
        ],
    );
}
