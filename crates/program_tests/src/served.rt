//! Banks that are served to clients in memory.
ghost use Rattle.std.specs.Prelude.{◌≤◌, None};

use crate::clients::{Client, Manner, Transcript, plain};
use crate::serving::{PLAN, bank_of, bank_with, server_to};
use bank_server::{ReadyFollowers, RunFault, StrayReason};
use bank_service::{ServeFault, serve, serve_beside};
use program_words::Plan;
use sb_calls::{REPLICAS, WORKERS};
use sb_checkpoint::{CheckpointStore, How, MemoryStore, StoreFault};
use sb_rows::Name;
use std::alloc::Global;
use std::process::Abort;
use std::sync::Wait;
use std::thread::Threads;
use std::time::Clock;

pub(crate) const OPENING: &[u8] = b"alice 100.00 50.00\nbob 0.00 20.00\nbegin\n";

// Client 7 asks for alice's balance, deposits 5.00 for bob, and gets the outcomes of both.
pub(crate) const ASKED: &[u8] = b"\x00\x10\x01\0\0\0\x07\0\0\0\x01\x01\x05alice\
\x00\x16\x01\0\0\0\x07\0\0\0\x02\x02\x03bob\0\0\0\0\0\0\x01\xf4\
\x00\x01\x06";

pub(crate) const TOLD: &[u8] = b"\x00\x13\x05\0\0\0\x07\0\0\0\x01\0\0\0\0\0\0\0\0\x3a\x98\
\x00\x13\x05\0\0\0\x07\0\0\0\x02\0\x01\0\0\0\0\0\0\0\0";

// The deposit alone, whose outcome nobody gets.
pub(crate) const DEPOSIT: &[u8] =
    b"\x00\x16\x01\0\0\0\x07\0\0\0\x02\x02\x03bob\0\0\0\0\0\0\x01\xf4";

// A flush, and an acknowledgement, which no client may send.
const ACK: &[u8] = b"\x00\x01\x06\x00\x0a\x03\x01\0\0\0\0\0\0\0\x02";

pub(crate) const GARBAGE: &[u8] = b"GET / HTTP/1.1\r\n";

/// A store that holds nothing after its puts.
#[derive(Drop)]
struct Forgetful;

impl CheckpointStore for Forgetful {
    ghost model = { record {
      slot = λ store. None;
      IsHonest = λ store. ⊥;
      failures = λ store. 0;
      acts = λ old step new. Unit {0};
    } };

    fn put(&mut self, _bytes: &[u8]) -> Result<(), StoreFault> {
        Ok(())
    }

    fn get(&mut self) -> Result<Option<Vec<u8>>, StoreFault> {
        Ok(None)
    }

    fn failures(&self) -> u64 {
        0
    }
}

// How a server ends, what it prints, what its clients get, and how many of them it hangs up on.
#[derive(Clone, Copy)]
struct Wanted<'a> {
    ends: Result<(), ServeFault>,
    printed: &'a str,
    told: &'a [u8],
    hung_up: usize,
}

// Serves a bank to these clients with this store, and compares.
fn expect<S: CheckpointStore>(
    rt: &(impl Abort + Threads + Wait + Clock + Sync),
    alloc: Global,
    clients: &[Client],
    store: S,
    plan: Plan,
    wanted: &Wanted,
)
    requires nodes { plan.nodes ≤ REPLICAS }
    requires workers { plan.workers ≤ WORKERS }
{
    let all = Transcript::new(alloc);
    let bank = bank_with(rt, alloc, OPENING, store);
    let mut written: Vec<u8> = Vec::new(alloc);
    let server = server_to(rt, alloc, clients, &all, bank, plan, &mut written);
    let served = serve(rt, Box::into_inner(server)).map(|_| ());
    assert!(rt; served == wanted.ends);
    assert!(rt; written.as_slice() == wanted.printed.as_bytes());
    assert!(rt; all.hung_up.get() == wanted.hung_up);
    let bytes = all.bytes.into_inner();
    assert!(rt; bytes.as_slice() == wanted.told);
}

#[test]
fn two_sessions_and_one_at_fault(rt: HostRuntime) {
    let alloc = rt.alloc();
    let clients = [plain(ASKED), plain(GARBAGE), plain(DEPOSIT)];
    let wanted = Wanted {
        ends: Ok(()),
        printed: "listening 127.0.0.1:4000\nsession 1 ok\nsession 2 fault 1\nsession 3 ok\n\
            alice 100.00 50.00\nbob 0.00 25.00\ntotal 175.00\n",
        told: TOLD,
        hung_up: 1,
    };
    for (nodes, workers) in [(1, 0), (1, 2), (3, 0), (16, 16)] {
        for saves in [false, true] {
            let plan = Plan {
                sessions: 3,
                nodes,
                workers,
                saves,
                ..PLAN
            };
            let store = MemoryStore::new(alloc);
            expect(&rt, alloc, &clients, store, plan, &wanted);
        }
    }
}

/// A client who asks for all, and whose stream behaves so.
pub(crate) fn asking(manner: Manner) -> Client<'static> {
    let sent = ASKED;
    Client { sent, manner }
}

#[test]
fn sessions_at_fault(rt: HostRuntime) {
    let alloc = rt.alloc();
    let clients = [
        plain(&ASKED[..17]),
        plain(ACK),
        asking(Manner::Stubborn),
        asking(Manner::Deaf),
        asking(Manner::Full),
        Client {
            sent: DEPOSIT,
            manner: Manner::Broken,
        },
        asking(Manner::Fitful),
        plain(b""),
    ];
    let plan = Plan {
        sessions: 8,
        nodes: 2,
        workers: 1,
        saves: true,
        ..PLAN
    };
    let wanted = Wanted {
        ends: Ok(()),
        printed: "listening 127.0.0.1:4000\nsession 1 fault 1\nsession 2 fault 2\n\
            session 3 fault 4\nsession 4 fault 4\nsession 5 fault 4\nsession 6 fault 4\n\
            session 7 ok\nsession 8 ok\nalice 100.00 50.00\nbob 0.00 25.00\ntotal 175.00\n",
        told: TOLD,
        hung_up: 2,
    };
    let store = MemoryStore::new(alloc);
    expect(&rt, alloc, &clients, store, plan, &wanted);
}

// Those who are gone before they are accepted are passed over. In the end the device fails.
#[test]
fn nobody_else_is_let_in(rt: HostRuntime) {
    let alloc = rt.alloc();
    let gone = asking(Manner::Gone);
    let plan = Plan {
        sessions: 2,
        ..PLAN
    };
    let wanted = Wanted {
        ends: Err(ServeFault::Run(RunFault::Device)),
        printed: "listening 127.0.0.1:4000\nsession 1 ok\n",
        told: TOLD,
        hung_up: 0,
    };
    let store = MemoryStore::new(alloc);
    expect(
        &rt,
        alloc,
        &[gone, gone, plain(ASKED), gone],
        store,
        plan,
        &wanted,
    );
}

// The first session of a bank that saves ends so, because of this store. What was asked is told before, and
// nobody is notified of the end.
fn expect_unsaved<S: CheckpointStore>(
    rt: &(impl Abort + Threads + Wait + Clock + Sync),
    alloc: Global,
    sent: &[u8],
    store: S,
    fault: ServeFault,
) {
    let plan = Plan {
        sessions: 2,
        saves: true,
        ..PLAN
    };
    let wanted = Wanted {
        ends: Err(fault),
        printed: "listening 127.0.0.1:4000\n",
        told: TOLD,
        hung_up: 0,
    };
    expect(rt, alloc, &[plain(sent), plain(b"")], store, plan, &wanted);
}

#[test]
fn a_store_that_forgets(rt: HostRuntime) {
    let fault = ServeFault::ReadBack;
    expect_unsaved(&rt, rt.alloc(), ASKED, Forgetful, fault);
}

#[test]
fn a_store_that_forgets_asks_before_a_fault(rt: HostRuntime) {
    let mut sent = Vec::from_slice(rt.alloc(), ASKED).expect(&rt, "memory");
    sent.extend_from_slice(GARBAGE).expect(&rt, "memory");
    let fault = ServeFault::ReadBack;
    expect_unsaved(&rt, rt.alloc(), &sent, Forgetful, fault);
}

#[test]
fn a_store_that_fails(rt: HostRuntime) {
    let mut store = MemoryStore::new(rt.alloc());
    store.tell(How::New);
    let fault = ServeFault::Run(RunFault::Device);
    expect_unsaved(&rt, rt.alloc(), ASKED, store, fault);
}

// Serves a client in memory, with followers that begin with this opening, and answers how that
// ends.
fn serve_one_beside(
    rt: &(impl Abort + Threads + Wait + Clock + Sync),
    alloc: Global,
    beside: &[u8],
    nodes: usize,
) -> Result<(), ServeFault>
    requires { nodes ≤ REPLICAS }
{
    let told = Transcript::new(alloc);
    let clients = [plain(ASKED)];
    let other = bank_of(rt, alloc, beside);
    let followers = ReadyFollowers::open(alloc, other.node(), nodes, 0).expect(rt, "followers");
    let bank = bank_of(rt, alloc, OPENING);
    let server = server_to(rt, alloc, &clients, &told, bank, PLAN, Vec::new(alloc));
    serve_beside(rt, followers, Box::into_inner(server)).map(|_| ())
}

// What `serve` does with its followers; those that it starts itself never stray.
#[test]
fn followers_that_began_otherwise_stray(rt: HostRuntime) {
    let alloc = rt.alloc();
    let other = b"alice 100.00 50.00\nbob 0.01 20.00\nbegin\n";
    let bob = StrayReason::Customer(Name::new(b"bob").expect(&rt, "a name"));
    let strayed = Err(ServeFault::Run(RunFault::Strayed(1, bob)));
    assert!(&rt; serve_one_beside(&rt, alloc, OPENING, 3).is_ok());
    assert!(&rt; serve_one_beside(&rt, alloc, other, 3) == strayed);
    // Without followers node 0 is compared with nobody.
    assert!(&rt; serve_one_beside(&rt, alloc, other, 1).is_ok());
}
