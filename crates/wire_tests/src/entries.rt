//! Entries that a stream hands out with their names looked up.
use crate::fixtures::{cents, entry, name};
use sb_calls::{Call, Op, TwoPlaces};
use sb_frames::{EntryOp, Frame, Stream, encode};
use sb_rows::Directory;
use std::process::Abort;

// The customers alice and bob.
fn directory(rt: &(impl Abort + AllocGlobal)) -> Directory {
    let mut directory = Directory::new(rt.alloc());
    for text in ["alice", "bob"] {
        let name = name(rt, text);
        // Each name is new, and there is room.
        if directory.place(&name).is_none() && directory.len() < 2 {
            directory.push(name).expect(rt, "memory for a name");
        }
    }
    directory
}

// Calls of known customers, of a missing one and of one twice, with the ops by hand.
fn calls(rt: &impl Abort) -> [(Call, Op); 4] {
    let alice = name(rt, "alice");
    let bob = name(rt, "bob");
    let carol = name(rt, "carol");
    let amount = cents(rt, 500);
    let places = TwoPlaces::new(1, 0).expect(rt, "two places");
    [
        (Call::Balance(alice), Op::Balance(0)),
        (
            Call::SendPayment(bob, alice, amount),
            Op::SendPayment(places, amount),
        ),
        (Call::DepositChecking(carol, amount), Op::NoCustomer),
        (Call::Amalgamate(bob, bob), Op::SameCustomer),
    ]
}

// This entry comes next, and stays until it is skipped.
fn skips(rt: &impl Abort, stream: &mut Stream, directory: &Directory, entry: &EntryOp) {
    assert!(rt; stream.peek_entry(directory) == Some(*entry));
    let next = stream.peek_entry(directory).expect(rt, "an entry");
    assert!(rt; next == *entry);
    stream.skip_entry();
}

// A frame that is no entry stays.
#[test]
fn entries_one_behind_another(rt: HostRuntime) {
    let directory = directory(&rt);
    let mut stream = Stream::new(rt.alloc());
    for (number, (call, _)) in (1..).zip(calls(&rt)) {
        assert!(rt; stream.feed(&encode(&entry(number, &call))) == Ok(()));
    }
    assert!(rt; stream.feed(&encode(&Frame::Flush)) == Ok(()));
    for (number, (_, op)) in (1..).zip(calls(&rt)) {
        skips(&rt, &mut stream, &directory, &EntryOp { number, op });
    }
    assert!(rt; stream.peek_entry(&directory).is_none());
    assert!(rt; stream.next() == Ok(Some(Frame::Flush)));
    assert!(rt; stream.ended());
}
