//! A replica that receives a stream, compared with one that receives the bytes of the same frames.
use super::*;
use sb_frames::{FrameFault, Stream, StreamFault};
use sb_replica::{ReceiveFault, Received};

// A replica, and the stream that it receives.
#[derive(Drop)]
struct StreamNode {
    node: Box<Node>,
    stream: Stream,
}

fn new_stream_node(rt: &(impl Abort + AllocGlobal)) -> Box<StreamNode> {
    let stream_node = StreamNode {
        node: opened_over(rt, None),
        stream: Stream::new(rt.alloc()),
    };
    Box::new(rt.alloc(), stream_node).expect(rt, "memory for a stream")
}

fn entry(rt: &impl Abort, number: u64, line: &str) -> Frame {
    let call = read_call(line.as_bytes()).expect(rt, "a call");
    Frame::Entry { number, call }
}

fn entries_up_to(rt: &(impl Abort + AllocGlobal), last: u64) -> Vec<Frame> {
    let mut frames = Vec::new(rt.alloc());
    for number in 0..last {
        assert!(rt;
            frames
                .push(entry(rt, number + 1, "deposit alice 0.01"))
                .is_ok()
        );
    }
    frames
}

fn spelled(rt: &(impl Abort + AllocGlobal), frames: &[Frame]) -> Vec<u8> {
    let mut bytes = Vec::new(rt.alloc());
    for frame in frames {
        assert!(rt; bytes.extend_from_slice(&encode(frame)).is_ok());
    }
    bytes
}

fn run_all(rt: &impl Abort, replica: &mut Replica<MemoryStore>) {
    for _ in 0..u64::MAX {
        let Some(job) = replica.take_at(0) else {
            return;
        };
        assert!(rt; replica.finish(job.run()).is_ok());
    }
}

// Receives the bytes of each frame. A busy replica runs everything first.
fn receive_each(rt: &impl Abort, replica: &mut Replica<MemoryStore>, frames: &[Frame]) {
    for frame in frames {
        let bytes = encode(frame);
        if let Ok(Heard::Busy(_)) = replica.on_frame(&bytes) {
            run_all(rt, replica);
            assert!(rt; replica.on_frame(&bytes).is_ok());
        }
    }
}

// Receives everything that comes with these bytes. A busy replica runs everything.
fn receive_piece(rt: &impl Abort, other: &mut StreamNode, bytes: &[u8]) {
    assert!(rt; other.stream.feed(bytes) == Ok(()));
    for _ in 0..u64::MAX {
        match other.node.replica.receive(&mut other.stream) {
            Ok(Received::Entry(_)) => {}
            Ok(Received::Short) => return,
            Ok(Received::Other(frame)) => assert!(rt; frame == Frame::Flush),
            Ok(Received::Busy) => run_all(rt, &mut other.node.replica),
            Err(_) => assert!(rt; false, "a fault"),
        }
    }
}

fn have_same_columns(rt: &impl Abort, one: &Replica<MemoryStore>, other: &Replica<MemoryStore>) {
    let first = one.final_columns().expect(rt, "no columns");
    let second = other.final_columns().expect(rt, "no columns");
    assert!(rt; first.checking() == second.checking());
    assert!(rt; first.savings() == second.savings());
}

// Once everything is run both are alike, and hold the same entries for the next two numbers.
fn are_alike(rt: &impl Abort, one: &mut Node, other: &mut Node) {
    for _ in 0..3 {
        run_all(rt, &mut one.replica);
        run_all(rt, &mut other.replica);
        assert!(rt; one.replica.length() == other.replica.length());
        have_same_columns(rt, &one.replica, &other.replica);
        assert!(rt; one.replica.advance() == other.replica.advance());
    }
    for number in 0..one.replica.length().saturating_add(1) {
        assert!(rt;
            one.replica.reply(number) == other.replica.reply(number),
            "{number}"
        );
    }
}

fn receive_alike(rt: &(impl Abort + AllocGlobal), frames: &[Frame], cut: usize) {
    let mut one = opened_over(rt, None);
    receive_each(rt, &mut one.replica, frames);
    let bytes = spelled(rt, frames);
    assert!(rt; cut <= bytes.len());
    let mut other = new_stream_node(rt);
    receive_piece(rt, &mut other, &bytes[..cut]);
    receive_piece(rt, &mut other, &bytes[cut..]);
    are_alike(rt, &mut one, &mut other.node);
}

#[test]
fn a_stream_is_received_as_its_frames_however_it_is_cut(rt: HostRuntime) {
    let frames = [
        entry(&rt, 1, "deposit alice 1.00"),
        entry(&rt, 3, "check bob 5.00"),
        Frame::Flush,
        entry(&rt, 2, "amalgamate alice bob"),
        entry(&rt, 2, "balance carol"),
        entry(&rt, 99, "balance carol"),
        entry(&rt, 0, "balance nobody"),
        Frame::Flush,
        entry(&rt, 4, "deposit dora 1.00"),
    ];
    for cut in 0..spelled(&rt, &frames).len() + 1 {
        receive_alike(&rt, &frames, cut);
    }
}

#[test]
fn a_long_stream_is_received_as_its_frames(rt: HostRuntime) {
    for last in [1_023, 1_024, 1_025, 2_500] {
        let frames = entries_up_to(&rt, last);
        receive_alike(&rt, &frames, 0);
        receive_alike(&rt, &frames, 30);
    }
}

fn receives_so(rt: &impl Abort, other: &mut StreamNode, answer: Result<Received, ReceiveFault>) {
    let answered = other.node.replica.receive(&mut other.stream);
    assert!(rt; answered == answer);
}

fn accepts_so(rt: &impl Abort, other: &mut StreamNode, number: u64) {
    receives_so(rt, other, Ok(Received::Entry(Heard::Accepted(number))));
}

// Nothing is lost while it is busy.
#[test]
fn a_busy_replica_takes_no_frame(rt: HostRuntime) {
    let bytes = spelled(&rt, &entries_up_to(&rt, 1_026));
    let mut other = new_stream_node(&rt);
    assert!(rt; other.stream.feed(&bytes) == Ok(()));
    assert!(rt; other.stream.feed(&encode(&Frame::Flush)) == Ok(()));
    for number in 1..1_025 {
        accepts_so(&rt, &mut other, number);
    }
    receives_so(&rt, &mut other, Ok(Received::Busy));
    receives_so(&rt, &mut other, Ok(Received::Busy));
    runs(&rt, &mut other.node.replica, 1, Reply::Done);
    accepts_so(&rt, &mut other, 1_025);
    receives_so(&rt, &mut other, Ok(Received::Busy));
    run_all(&rt, &mut other.node.replica);
    accepts_so(&rt, &mut other, 1_026);
    receives_so(&rt, &mut other, Ok(Received::Other(Frame::Flush)));
    receives_so(&rt, &mut other, Ok(Received::Short));
    assert!(rt; other.stream.ended());
    run_all(&rt, &mut other.node.replica);
    ends(&rt, &other.node.replica, 1_026, [6_026, 2_000, 0]);
}

#[test]
fn what_came_before_a_bad_frame_is_received(rt: HostRuntime) {
    let good = spelled(&rt, &entries_up_to(&rt, 2));
    let bad = ReceiveFault::Stream(StreamFault::Bad(FrameFault::UnknownTag));
    let mut other = new_stream_node(&rt);
    assert!(rt; other.stream.feed(&good) == Ok(()));
    assert!(rt; other.stream.feed(&[0, 1, 9]) == Ok(()));
    accepts_so(&rt, &mut other, 1);
    accepts_so(&rt, &mut other, 2);
    receives_so(&rt, &mut other, Err(bad));
    assert!(rt; other.node.replica.length() == 2);
}
