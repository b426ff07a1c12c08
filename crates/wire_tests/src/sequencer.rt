//! The sequencer: what it is asked, what it receives, and its answers.
use crate::fixtures::{balance, entry};
use sb_calls::Reply;
use sb_sequencer::{AckNote, AnswerNote, AskFault, HaveNote, Numbered, REPLICAS, Sequencer};
use std::process::Abort;

mod asks;
mod notes;

// A step on a sequencer, with its answer. Each call is a balance of the customer with this name.
#[derive(Clone, Copy)]
enum Step {
    // An ask by the client under its own number of the request.
    Ask(u32, u32, &'static str, Result<Numbered, AskFault>),
    // Client 1 asks for this many calls, the first of the log, with its requests from 0 on.
    AskMany(u32, &'static str),
    // Room is made for this many more calls.
    Reserve(usize),
    Length(u64),
    // The number of a client's request.
    NumberOf(u32, u32, Option<u64>),
    // The call with this number.
    Shows(u64, Option<&'static str>),
    // The entry with this number has this call.
    Entry(u64, Option<&'static str>),
    // A replica answers the call with this number with this reply.
    Answer(u64, Reply, AnswerNote),
    // The reply that is kept for a client's request.
    AnswerOf(u32, u32, Option<Reply>),
    // A replica has the log up to a length.
    Ack(u8, u64, AckNote),
    // A replica keeps a checkpoint of a length.
    Have(u8, u64, HaveNote),
    // The donor of a replica's state, with its length.
    Donor(u8, Option<(u8, u64)>),
    // A replica gets this many entries of this call again; the first has this number.
    Resends(u8, u64, usize, &'static str),
}

// Checks what the step at this position says.
fn is_so(rt: &impl Abort, position: usize, so: bool) {
    assert!(rt; so, "step {position}");
}

// A sequencer for this many replicas.
fn new_sequencer(rt: &(impl Abort + AllocGlobal), replicas: usize) -> Box<Sequencer> {
    assert!(rt; replicas <= REPLICAS);
    Box::new(rt.alloc(), Sequencer::open(rt.alloc(), replicas)).expect(rt, "memory for a sequencer")
}

fn asks_many(rt: &impl Abort, log: &mut Sequencer, count: u32, customer: &str) {
    let call = balance(rt, customer);
    for request in 0..count {
        let number = u64::from(request) + 1;
        assert!(rt;
            log.ask(1, request, &call) == Ok(Numbered::New(number)),
            "{request}"
        );
    }
}

fn shows(rt: &impl Abort, log: &Sequencer, number: u64, customer: Option<&str>) {
    match customer {
        Some(customer) => assert!(rt;
            log.call(number) == Some(&balance(rt, customer)),
            "{number}"
        ),
        None => assert!(rt; log.call(number).is_none(), "{number}"),
    }
}

fn enters(rt: &impl Abort, log: &Sequencer, number: u64, customer: Option<&str>) {
    match customer {
        Some(customer) => {
            let wanted = entry(number, &balance(rt, customer));
            assert!(rt; log.entry(number) == Some(wanted), "{number}");
        }
        None => assert!(rt; log.entry(number).is_none(), "{number}"),
    }
}

fn resends(
    rt: &impl Abort,
    log: &Sequencer,
    replica: u8,
    first: u64,
    count: usize,
    customer: &str,
) {
    let call = balance(rt, customer);
    let sent = log.resend(replica);
    assert!(rt; sent.len() == count, "{replica} {first}");
    for (frame, number) in sent.iter().zip(first..u64::MAX) {
        assert!(rt; *frame == entry(number, &call), "{number}");
    }
}

fn play_step(rt: &impl Abort, log: &mut Sequencer, position: usize, step: &Step) {
    match *step {
        Step::Ask(client, request, customer, answer) => {
            let call = balance(rt, customer);
            is_so(rt, position, log.ask(client, request, &call) == answer);
        }
        Step::AskMany(count, customer) => asks_many(rt, log, count, customer),
        Step::Reserve(calls) => is_so(rt, position, log.reserve(calls).is_ok()),
        Step::Length(length) => is_so(rt, position, log.length() == length),
        Step::NumberOf(client, request, number) => {
            is_so(rt, position, log.number_of(client, request) == number);
        }
        Step::Shows(number, customer) => shows(rt, log, number, customer),
        Step::Entry(number, customer) => enters(rt, log, number, customer),
        Step::Answer(number, reply, note) => {
            is_so(rt, position, log.on_answer(number, reply) == note);
        }
        Step::AnswerOf(client, request, reply) => {
            is_so(rt, position, log.answer_of(client, request) == reply);
        }
        Step::Ack(replica, length, note) => {
            is_so(rt, position, log.on_ack(replica, length) == note);
        }
        Step::Have(replica, length, note) => {
            is_so(rt, position, log.on_have(replica, length) == note);
        }
        Step::Donor(replica, donor) => is_so(rt, position, log.donor(replica) == donor),
        Step::Resends(replica, first, count, customer) => {
            resends(rt, log, replica, first, count, customer);
        }
    }
}

// Plays the steps on a sequencer for this many replicas.
fn play_steps(rt: &(impl Abort + AllocGlobal), replicas: usize, steps: &[Step]) {
    let mut log = new_sequencer(rt, replicas);
    for (position, step) in steps.iter().enumerate() {
        play_step(rt, &mut log, position, step);
    }
}
