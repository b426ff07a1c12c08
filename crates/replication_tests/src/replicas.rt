//! Replicas: entries from the network, checkpoints, restarts and states of other replicas.
use crate::bank::opening;
use crate::checkpoints::bytes;
use crate::steps::is_so;
use cown_board::{CutFault, Done, Job, Runs};
use sb_calls::{Op, Reply, read_call};
use sb_checkpoint::{CheckpointFault, CheckpointStore, How, MemoryStore};
use sb_frames::{Frame, encode};
use sb_replica::{AdoptFault, Adopted, Heard, MarkFault, Offered, Replica, RestartFault};
use std::process::Abort;

mod cuts;
mod faults;
mod frames;
mod marks;
mod offers;
mod restarts;
mod states;
mod streams;

// Replica 1 of the three, over a store in memory, with its jobs that are out, the earliest first.
#[derive(Drop)]
struct Node {
    replica: Replica<MemoryStore>,
    out: Vec<Job<Op>>,
}

// A step on a replica, with its answer.
#[derive(Clone, Copy)]
enum Step {
    // Receives the frame of an entry with this call, with this answer.
    ReceiveEntry(u64, &'static str, Heard),
    // The next entries up to this number, each with this call, are accepted.
    AcceptUpTo(u64, &'static str),
    // Offers an entry of nobody's call, which declares no cowns, with this answer and this length of
    // the log then.
    Offer(u64, Offered, u64),
    // The next entries up to this number, of the same call, are taken.
    OfferUpTo(u64),
    // Makes room for this many entries.
    Reserve(usize),
    // Advances to the entry that is held for the next number, with this answer.
    Advance(Option<Heard>),
    // The first ready behaviour has this number, and is out from now on.
    Take(u64),
    // The job that has been out longest is run and finished.
    Finish(Reply),
    // The job that has been out longest is run, and comes back: its number is finished already, or
    // isn't out.
    ComeBack,
    // The first ready behaviour has this number; it is run and finished.
    Run(u64, Reply),
    // The reply to a number.
    ReplyTo(u64, Option<Reply>),
    // Nothing is unfinished, and these are the length and the checking balances of the three.
    Ends(u64, [i64; 3]),
    // Something is unfinished.
    Unfinished,
    Length(u64),
    Cut(Result<u64, CutFault>),
    // Sets how the store's next put ends.
    Tell(How),
    Mark(Result<u64, MarkFault>),
    // The store holds a checkpoint of these fields, each in hexadecimal digits, or none.
    Stored(Option<&'static [&'static str]>),
    Restart(Result<u64, RestartFault>),
    // Adopts the state of these fields, with this answer.
    Adopt(&'static [&'static str], Result<Adopted, AdoptFault>),
    // The state that the replica has: its length and its fields, or none.
    GivesState(Option<(u64, &'static [&'static str])>),
    // The frame with the length of its state.
    HaveFrame(u64),
    // The frames with its length, and with its reply to a number.
    AckFrame(Frame),
    AnswerFrame(u64, Option<Frame>),
}

// A replica whose store already holds these bytes.
fn opened_over(rt: &(impl Abort + AllocGlobal), stored: Option<&[u8]>) -> Box<Node> {
    let mut store = MemoryStore::new(rt.alloc());
    if let Some(bytes) = stored {
        assert!(rt; store.put(bytes) == Ok(()));
    }
    let bank = opening(rt);
    let replica = Replica::open(rt.alloc(), 1, bank.directory, bank.columns, store);
    let node = Node {
        replica: replica.expect(rt, "memory for a replica"),
        out: Vec::new(rt.alloc()),
    };
    Box::new(rt.alloc(), node).expect(rt, "memory for a node")
}

fn receives<S: CheckpointStore>(
    rt: &impl Abort,
    replica: &mut Replica<S>,
    number: u64,
    line: &str,
    heard: Heard,
) {
    let call = read_call(line.as_bytes()).expect(rt, "a call");
    let bytes = encode(&Frame::Entry { number, call });
    assert!(rt; replica.on_frame(&bytes) == Ok(heard), "{number} {line}");
}

fn accepts_up_to(rt: &impl Abort, replica: &mut Replica<MemoryStore>, last: u64, line: &str) {
    for number in replica.length() + 1..last.saturating_add(1) {
        receives(rt, replica, number, line, Heard::Accepted(number));
        assert!(rt; replica.length() == number);
    }
}

fn answers_offer(
    rt: &impl Abort,
    replica: &mut Replica<MemoryStore>,
    number: u64,
    answer: Offered,
    length: u64,
) {
    let offered = replica.offer_entry(number, Op::NoCustomer);
    assert!(rt; offered == Ok(answer), "{number}");
    assert!(rt; replica.length() == length, "{number}");
}

fn takes_up_to(rt: &impl Abort, replica: &mut Replica<MemoryStore>, last: u64) {
    for number in replica.length() + 1..last.saturating_add(1) {
        answers_offer(rt, replica, number, Offered::Next, number);
    }
}

fn is_done<S: CheckpointStore>(
    rt: &impl Abort,
    replica: &mut Replica<S>,
    done: Done<Op>,
    reply: Reply,
) {
    let number = done.number();
    assert!(rt; replica.finish(done).ok() == Some(reply), "{number}");
    assert!(rt; replica.reply(number) == Some(reply), "{number}");
}

fn runs<S: CheckpointStore>(rt: &impl Abort, replica: &mut Replica<S>, number: u64, reply: Reply) {
    let job = replica.take_at(0).expect(rt, "none is ready");
    assert!(rt; job.number() == number);
    is_done(rt, replica, job.run(), reply);
}

fn takes(rt: &impl Abort, node: &mut Node, number: u64) {
    let job = node.replica.take_at(0).expect(rt, "none is ready");
    assert!(rt; job.number() == number);
    assert!(rt; node.out.push(job).is_ok());
}

fn first_out(rt: &impl Abort, node: &mut Node) -> Job<Op> {
    assert!(rt; !node.out.is_empty());
    node.out.remove(0)
}

fn finishes(rt: &impl Abort, node: &mut Node, reply: Reply) {
    let done = first_out(rt, node).run();
    is_done(rt, &mut node.replica, done, reply);
}

fn comes_back(rt: &impl Abort, node: &mut Node) {
    let done = first_out(rt, node).run();
    assert!(rt; node.replica.finish(done).is_err());
}

fn ends(rt: &impl Abort, replica: &Replica<MemoryStore>, length: u64, checking: [i64; 3]) {
    assert!(rt; replica.length() == length);
    assert!(rt; replica.idle());
    let columns = replica.columns().expect(rt, "memory for columns");
    let columns = columns.expect(rt, "no columns");
    assert!(rt; columns.checking() == checking.as_slice());
}

fn is_unfinished(rt: &impl Abort, replica: &Replica<MemoryStore>) {
    assert!(rt; !replica.idle());
    let columns = replica.columns().expect(rt, "memory for columns");
    assert!(rt; columns.is_none());
}

fn store_contains(
    rt: &(impl Abort + AllocGlobal),
    replica: &mut Replica<MemoryStore>,
    fields: Option<&[&str]>,
) {
    let stored = replica.stored().expect(rt, "memory for the bytes");
    let written = fields.map(|fields| bytes(rt, fields));
    assert!(rt; stored == written);
}

fn restarts_so(
    rt: &impl Abort,
    replica: &mut Replica<MemoryStore>,
    answer: Result<u64, RestartFault>,
) {
    assert!(rt; replica.restart() == answer);
    if let Ok(length) = answer {
        assert!(rt; replica.length() == length);
        assert!(rt; replica.idle());
    }
}

fn gives_state(
    rt: &(impl Abort + AllocGlobal),
    replica: &mut Replica<MemoryStore>,
    state: Option<(u64, &[&str])>,
) {
    let answer = replica.kept_state().expect(rt, "the state isn't read");
    match state {
        None => assert!(rt; answer.is_none()),
        Some((size, fields)) => {
            let (length, content) = answer.expect(rt, "there is no state");
            assert!(rt; length == size);
            assert!(rt; content == bytes(rt, fields));
        }
    }
}

fn sends_have<S: CheckpointStore>(rt: &impl Abort, replica: &mut Replica<S>, length: u64) {
    let frame = replica.have_frame().expect(rt, "no length is read");
    assert!(rt; frame == Frame::Have { replica: 1, length });
}

fn plays_one(rt: &(impl Abort + AllocGlobal), node: &mut Node, position: usize, step: &Step) {
    match *step {
        Step::ReceiveEntry(number, line, heard) => receives(
            rt,
            &mut node.replica,
            number,
            line,
            heard,
        ),
        Step::AcceptUpTo(last, line) => accepts_up_to(rt, &mut node.replica, last, line),
        Step::Offer(number, answer, length) => {
            answers_offer(rt, &mut node.replica, number, answer, length);
        }
        Step::OfferUpTo(last) => takes_up_to(rt, &mut node.replica, last),
        Step::Reserve(count) => is_so(rt, position, node.replica.reserve(count).is_ok()),
        Step::Advance(heard) => is_so(rt, position, node.replica.advance() == Ok(heard)),
        Step::Take(number) => takes(rt, node, number),
        Step::Finish(reply) => finishes(rt, node, reply),
        Step::ComeBack => comes_back(rt, node),
        Step::Run(number, reply) => runs(rt, &mut node.replica, number, reply),
        Step::ReplyTo(number, reply) => {
            is_so(rt, position, node.replica.reply(number) == reply);
        }
        Step::Ends(length, checking) => ends(rt, &node.replica, length, checking),
        Step::Unfinished => is_unfinished(rt, &node.replica),
        Step::Length(length) => is_so(rt, position, node.replica.length() == length),
        Step::Cut(answer) => is_so(rt, position, node.replica.cut() == answer),
        Step::Tell(how) => node.replica.tell(how),
        Step::Mark(answer) => is_so(rt, position, node.replica.mark() == answer),
        Step::Stored(fields) => store_contains(rt, &mut node.replica, fields),
        Step::Restart(answer) => restarts_so(rt, &mut node.replica, answer),
        Step::Adopt(fields, answer) => {
            is_so(
                rt,
                position,
                node.replica.adopt(&bytes(rt, fields)) == answer,
            );
        }
        Step::GivesState(state) => gives_state(rt, &mut node.replica, state),
        Step::HaveFrame(length) => sends_have(rt, &mut node.replica, length),
        Step::AckFrame(frame) => is_so(rt, position, node.replica.ack_frame() == frame),
        Step::AnswerFrame(number, frame) => {
            is_so(rt, position, node.replica.answer_frame(number) == frame);
        }
    }
}

// Plays the steps on a replica whose store already holds these bytes.
fn plays_over(rt: &(impl Abort + AllocGlobal), stored: Option<&[u8]>, steps: &[Step]) {
    let mut node = opened_over(rt, stored);
    for (position, step) in steps.iter().enumerate() {
        plays_one(rt, &mut node, position, step);
    }
}

// Plays the steps on a replica at the opening, over an empty store.
fn plays(rt: &(impl Abort + AllocGlobal), steps: &[Step]) {
    plays_over(rt, None, steps);
}
