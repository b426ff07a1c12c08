//! Servers that compare node 0 with its followers while they go on.
ghost use Rattle.std.specs.Prelude.{◌≡◌, ◌≤◌, ◌<◌, ◌+◌, [], length, None, true};
ghost use Rattle.sb_calls.specs.declared.nodes.TheConstants.{REPLICAS};

use crate::serving::{PLAN, bank_of, server_over};
use bank_clients::Connections;
use bank_server::{Arrival, Arrivals, AskCounts, ReadyFollowers, RunFault, StrayReason};
use bank_service::{ServeFault, serve_beside};
use program_words::Plan;
use std::alloc::Global;
use std::cell::Cell;
use std::io;
use std::process::Abort;
use std::sync::Wait;
use std::thread::Threads;
use std::time::Clock;

const OPENING: &[u8] = b"alice 100.00 50.00\ndave 1.00 1.00\nbegin\n";

// Another name for the same balances: what differs is the reply to a call that names dave.
const OTHER_NAME: &[u8] = b"alice 100.00 50.00\ndora 1.00 1.00\nbegin\n";

// Adds a follower that begins with this opening.
fn add_follower(rt: &impl Abort, alloc: Global, ready: &mut ReadyFollowers, opening: &[u8])
    requires some { 1 ≤ ready.old.nodes }
    requires limit { ready.old.nodes < REPLICAS }
    ensures { ready.new.nodes ≡ ready.old.nodes + 1 }
{
    let bank = bank_of(rt, alloc, opening);
    ready.add(alloc, bank.node(), 0).expect(rt, "a follower");
}

// Three followers, of which the second begins with this opening.
fn three(rt: &impl Abort, alloc: Global, second: &[u8]) -> ReadyFollowers
    ensures { result.nodes ≡ 4 }
{
    let mut ready = ReadyFollowers::new(alloc);
    add_follower(rt, alloc, &mut ready, OPENING);
    add_follower(rt, alloc, &mut ready, second);
    add_follower(rt, alloc, &mut ready, OPENING);
    ready
}

// Appends what client 7 asks by its request of this number: a deposit of 1.00 for dave, or alice's balance.
fn push_ask(rt: &impl Abort, request: u32, is_deposit: bool, out: &mut Vec<u8>) {
    let number = request.to_be_bytes();
    if is_deposit {
        push(rt, b"\x00\x17\x01\0\0\0\x07", out);
        push(rt, number.as_slice(), out);
        push(rt, b"\x02\x04dave\0\0\0\0\0\0\0\x64", out);
    } else {
        push(rt, b"\x00\x10\x01\0\0\0\x07", out);
        push(rt, number.as_slice(), out);
        push(rt, b"\x01\x05alice", out);
    }
}

fn push(rt: &impl Abort, bytes: &[u8], out: &mut Vec<u8>) {
    out.extend_from_slice(bytes).expect(rt, "memory for bytes");
}

// The asks with the numbers from `first` to `last`, of which this one is the deposit. Behind each whole
// multiple of `each`, and at the end, stands a flush.
fn asks(rt: &impl Abort, alloc: Global, first: u32, last: u32, deposit: u32, each: u32) -> Vec<u8>
    requires { 0 < each }
{
    let mut out = Vec::new(alloc);
    for request in first..last {
        push_ask(rt, request, request == deposit, &mut out);
        if request % each == 0 {
            push(rt, FLUSH, &mut out);
        }
    }
    push_ask(rt, last, last == deposit, &mut out);
    push(rt, FLUSH, &mut out);
    out
}

const FLUSH: &[u8] = b"\x00\x01\x06";

// The connections of two clients, one after another, from each of whom as many bytes arrive in each round as
// are taken at once, and then its end.
#[derive(Drop)]
struct Wire<'a> {
    coming: [&'a [u8]; 2],
    client: usize,
    is_taken: bool,
    rounds: &'a Cell<usize>,
}

impl Arrivals for Wire<'_> {
    ghost coming = { λ wire. None };

    ghost here = { λ wire. None };

    ghost outgoing = { λ wire. record { sent = None; full = λ place. true } };

    fn next(&mut self, chunk: &mut [u8]) -> Option<Arrival> {
        if self.is_taken {
            return None;
        }
        self.is_taken = true;
        let client = self.client;
        let coming = self.coming.get_mut(client)?;
        let count = coming.len().min(chunk.len());
        let (piece, rest) = coming.split_at(count);
        chunk[..count].copy_from_slice(piece);
        *coming = rest;
        Some(Arrival {
            client: 0,
            read: Some(count),
        })
    }
}

impl Connections for Wire<'_> {
    ghost writable_places = { λ wire. [] };

    fn wait(&mut self) -> io::Result<()> {
        self.is_taken = false;
        self.rounds.set(self.rounds.get().wrapping_add(1));
        Ok(())
    }

    fn writable(&self) -> &[usize] {
        &[]
    }

    fn send(&mut self, _place: usize, bytes: &[u8]) -> usize {
        bytes.len()
    }

    fn leave(&mut self, _place: usize, _is_at_fault: bool, _counts: AskCounts) {
        self.client = self.client.wrapping_add(1);
    }
}

// How a server of two clients ends, what it prints, and after how many rounds. They have 70,000 and 80,000
// asks, of which the second one's first is the deposit, and a flush behind each 10,000.
fn serve_rounds(
    rt: &(impl Abort + Threads + Wait + Clock + Sync),
    alloc: Global,
    second: &[u8],
) -> (Result<(), ServeFault>, Vec<u8>, usize) {
    let rounds = Cell::new(0);
    let before = asks(rt, alloc, 1, 70_000, 70_001, 10_000);
    let behind = asks(rt, alloc, 70_001, 150_000, 70_001, 10_000);
    let wire = Wire {
        coming: [&before, &behind],
        client: 0,
        is_taken: false,
        rounds: &rounds,
    };
    let plan = Plan {
        sessions: 2,
        ..PLAN
    };
    let mut printed = Vec::new(alloc);
    let bank = bank_of(rt, alloc, OPENING);
    let server = server_over(rt, alloc, wire, 1, bank, plan, &mut printed);
    let ended = serve_beside(rt, three(rt, alloc, second), Box::into_inner(server)).map(|_| ());
    (ended, printed, rounds.get())
}

// In a round 65,536 bytes arrive, which are 3,640 asks or one more. The 19th has the 65,536th ask, and no
// flush: node 0 executes first what nobody waits for. The first client ends in the 21st round, the second one
// 23 rounds later.
#[test]
fn a_server_compares_as_it_goes_on(rt: HostRuntime) {
    let (ended, printed, rounds) = serve_rounds(&rt, rt.alloc(), OPENING);
    assert!(&rt; ended == Ok(()));
    let wanted = b"listening 127.0.0.1:4000\nsession 1 ok\nsession 2 ok\n\
        alice 100.00 50.00\ndave 1.00 2.00\ntotal 153.00\n";
    assert!(&rt; printed.as_slice() == wanted.as_slice());
    assert!(&rt; rounds == 44);
}

// The second comparison is behind the 39th round: there were 69,175 asks at the first.
#[test]
fn a_server_ends_once_a_follower_strayed(rt: HostRuntime) {
    let (ended, printed, rounds) = serve_rounds(&rt, rt.alloc(), OTHER_NAME);
    let strayed = RunFault::Strayed(2, StrayReason::Entry(70_001));
    assert!(&rt; ended == Err(ServeFault::Run(strayed)));
    let wanted = b"listening 127.0.0.1:4000\nsession 1 ok\n";
    assert!(&rt; printed.as_slice() == wanted.as_slice());
    assert!(&rt; rounds == 39);
}
