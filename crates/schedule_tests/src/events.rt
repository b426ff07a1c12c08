//! Lines of events, and lines that aren't.
use crate::worlds::at;
use sb_amount::Cents;
use sb_calls::{Call, CallFault};
use sb_checkpoint::How;
use sb_rows::Name;
use schedule_text::{Event, EventFault, NodeEvent, SystemEvent, read_event};
use std::process::Abort;

// Checks the event that each of these lines spells.
fn are_read(rt: &impl Abort, lines: &[(&str, Event)]) {
    for (line, event) in lines {
        assert!(rt; read_event(line.as_bytes()) == Ok(*event), "{line}");
    }
}

#[test]
fn a_line_of_each_event_at_a_replica(rt: HostRuntime) {
    let take = NodeEvent::Take {
        worker: 16,
        index: 9,
    };
    let most = NodeEvent::Adopt {
        position: 4294967295,
    };
    are_read(
        &rt,
        &[
            ("send 0 5", at(0, NodeEvent::Send { number: 5 })),
            ("resend 1", at(1, NodeEvent::Resend)),
            ("to 2 6", at(2, NodeEvent::To { position: 6 })),
            ("next 1", at(1, NodeEvent::Next)),
            ("ack 3", at(3, NodeEvent::Ack)),
            ("answer 4 7", at(4, NodeEvent::Answer { number: 7 })),
            ("take 6 16 9", at(6, take)),
            ("finish 7 1", at(7, NodeEvent::Finish { worker: 1 })),
            ("cut 1", at(1, NodeEvent::Cut)),
            ("mark 0 ok", at(0, NodeEvent::Mark { how: How::Ok })),
            ("mark 0 old", at(0, NodeEvent::Mark { how: How::Old })),
            ("mark 0 new", at(0, NodeEvent::Mark { how: How::New })),
            ("restart 1", at(1, NodeEvent::Restart)),
            ("have 1", at(1, NodeEvent::Have)),
            ("adopt 5 4294967295", at(5, most)),
        ],
    );
}

#[test]
fn a_line_of_each_other_event(rt: HostRuntime) {
    let bob = Name::new(b"bob").expect(&rt, "a name");
    let amount = Cents::new(1_000).expect(&rt, "an amount");
    let ask = Event::Ask {
        client: 0,
        request: 2,
        call: Call::DepositChecking(bob, amount),
    };
    let append = Event::Append {
        client: 4294967295,
        request: 0,
        call: Call::DepositChecking(bob, amount),
    };
    let from = SystemEvent::From {
        replica: 5,
        position: 8,
    };
    let give = SystemEvent::Give {
        donor: 3,
        replica: 4,
    };
    let audit = SystemEvent::Audit {
        first: 3,
        second: 2,
    };
    are_read(
        &rt,
        &[
            ("ask 0 2 deposit bob 10.00", ask),
            ("append 4294967295 0 deposit bob 10.00", append),
            ("sync", Event::System(SystemEvent::Sync)),
            ("crash 0", Event::System(SystemEvent::Crash { kept: 0 })),
            ("from 5 8", Event::System(from)),
            ("donor 2", Event::System(SystemEvent::Donor { replica: 2 })),
            ("give 3 4", Event::System(give)),
            ("audit 3 2", Event::System(audit)),
        ],
    );
}

const FAULTS: [(&str, EventFault); 13] = [
    ("", EventFault::UnknownEvent),
    ("balance alice", EventFault::UnknownEvent),
    ("appends 1 1 balance alice", EventFault::UnknownEvent),
    ("send x", EventFault::WrongWords),
    ("sync ", EventFault::WrongWords),
    ("ask x", EventFault::WrongWords),
    ("send 0 01", EventFault::BadNumber),
    ("mark 0 OK", EventFault::BadNumber),
    ("crash 4294967296", EventFault::BadNumber),
    ("ask 1 1", EventFault::Call(CallFault::UnknownVerb)),
    (
        "append 1 1 balance",
        EventFault::Call(CallFault::WrongWords),
    ),
    ("ask 1 1 balance A", EventFault::Call(CallFault::BadName)),
    ("ask 1 1 check a 1", EventFault::Call(CallFault::BadMoney)),
];

// Checks the first fault of a line.
fn is_at_fault(rt: &impl Abort, line: &str, fault: EventFault) {
    assert!(rt; read_event(line.as_bytes()) == Err(fault), "{line}");
}

#[test]
fn the_first_fault_of_a_line(rt: HostRuntime) {
    for (line, fault) in FAULTS {
        is_at_fault(&rt, line, fault);
    }
}
