//! The parts of the tests' tables.
use sb_amount::Cents;
use sb_calls::{Call, Reply, WireReply};
use sb_frames::{AskOutcome, Frame};
use sb_rows::Name;
use std::process::Abort;

// The bytes that hexadecimal digits spell; spaces are skipped.
pub(crate) fn bytes(rt: &(impl Abort + AllocGlobal), digits: &str) -> Vec<u8> {
    let mut bare = Vec::new(rt.alloc());
    for digit in digits.as_bytes() {
        if *digit != b' ' {
            bare.push(*digit).expect(rt, "memory for digits");
        }
    }
    hex::decode(rt.alloc(), bare).expect(rt, "hexadecimal digits")
}

// The bytes of a body, with their length in front.
pub(crate) fn frame_bytes(rt: &(impl Abort + AllocGlobal), body: &str) -> Vec<u8> {
    let mut frame_bytes = Vec::new(rt.alloc());
    let body = bytes(rt, body);
    let length = u16::try_from(body.len()).ok().expect(rt, "a short body");
    frame_bytes
        .extend_from_slice(&length.to_be_bytes())
        .expect(rt, "memory for a length");
    frame_bytes
        .extend_from_slice(&body)
        .expect(rt, "memory for a body");
    frame_bytes
}

pub(crate) fn name(rt: &impl Abort, text: &str) -> Name {
    Name::new(text.as_bytes()).expect(rt, "a name")
}

pub(crate) fn cents(rt: &impl Abort, value: i64) -> Cents {
    Cents::new(value).expect(rt, "an amount")
}

pub(crate) fn wire_reply(rt: &impl Abort, reply: Reply) -> WireReply {
    WireReply::new(reply).expect(rt, "a reply")
}

// The call that shows the balance of the customer with this name.
pub(crate) fn balance(rt: &impl Abort, text: &str) -> Call {
    Call::Balance(name(rt, text))
}

pub(crate) fn ask(client: u32, request: u32, call: &Call) -> Frame {
    Frame::Ask {
        client,
        request,
        call: *call,
    }
}

pub(crate) fn entry(number: u64, call: &Call) -> Frame {
    Frame::Entry {
        number,
        call: *call,
    }
}

// Frames with their spellings, by hand.
pub(crate) fn vectors(rt: &impl Abort) -> [(Frame, &'static str); 10] {
    let alice = name(rt, "alice");
    let bob = name(rt, "bob");
    let amount = cents(rt, 500);
    let done = wire_reply(rt, Reply::Done);
    let shown = wire_reply(rt, Reply::Shown(15_000));
    [
        (
            Frame::Ask {
                client: 7,
                request: 1,
                call: Call::Balance(alice),
            },
            "0010 01 00000007 00000001 01 05 616c696365",
        ),
        (
            Frame::Ask {
                client: 7,
                request: 2,
                call: Call::DepositChecking(bob, amount),
            },
            "0016 01 00000007 00000002 02 03 626f62 00000000000001f4",
        ),
        (
            Frame::Entry {
                number: 1,
                call: Call::Balance(alice),
            },
            "0010 02 0000000000000001 01 05 616c696365",
        ),
        (
            Frame::Entry {
                number: 1,
                call: Call::SendPayment(bob, alice, cents(rt, 2_000)),
            },
            "001c 02 0000000000000001 06 03 626f62 05 616c696365 00000000000007d0",
        ),
        (
            Frame::Ack {
                replica: 1,
                length: 2,
            },
            "000a 03 01 0000000000000002",
        ),
        (
            Frame::Answer {
                number: 2,
                reply: done,
            },
            "0012 04 0000000000000002 01 0000000000000000",
        ),
        (
            Frame::Outcome {
                client: 7,
                request: 1,
                outcome: AskOutcome::Replied(shown),
            },
            "0013 05 00000007 00000001 00 00 0000000000003a98",
        ),
        (
            Frame::Outcome {
                client: 7,
                request: 2,
                outcome: AskOutcome::Replied(done),
            },
            "0013 05 00000007 00000002 00 01 0000000000000000",
        ),
        (Frame::Flush, "0001 06"),
        (
            Frame::Have {
                replica: 1,
                length: 2,
            },
            "000a 07 01 0000000000000002",
        ),
    ]
}
