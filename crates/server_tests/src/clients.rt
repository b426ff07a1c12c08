//! Clients who are served at once, over arrivals in memory.
ghost use Rattle.std.specs.Prelude.{◌≡◌, ◌≤◌, ◌<◌, ℕ, length, None, true, OnOk};
ghost use Rattle.std.specs.List.{All};
ghost use Rattle.bank_server.specs.Clients.{IsReady};

use crate::bank::{expect, expect_bytes, joined, opened};
use crate::wire::{ENTRY, FLUSH, OTHER};
use bank_server::{Arrival, Arrivals, ClientLimits, Clients, Primary, SessionFault, TurnFault};
use cown_workers::InlineCrew;
use sb_ask_log::Keeper;
use sb_checkpoint::MemoryStore;
use sb_frames::FrameFault;
use std::alloc::Global;
use std::process::Abort;

// A piece of what comes: whose it is, and its bytes. No bytes are the end, and `None` is a
// connection that fails.
type Piece<'a> = (usize, Option<&'a [u8]>);

// Arrivals in memory, one after another.
#[derive(Drop)]
struct Script<'a> {
    pieces: &'a [Piece<'a>],
    taken: usize,
}

impl Arrivals for Script<'_> {
    ghost coming = { λ script. None };

    ghost here = { λ script. None };

    ghost outgoing = { λ script. record { sent = None; full = λ place. true } };

    fn next(&mut self, chunk: &mut [u8]) -> Option<Arrival> {
        let (client, piece) = *self.pieces.get(self.taken)?;
        self.taken = self.taken.saturating_add(1);
        let read = match piece {
            Some(bytes) => Some(put(bytes, chunk)),
            None => None,
        };
        Some(Arrival { client, read })
    }
}

/// Puts bytes at the front of a chunk, as far as they fit, and answers how many.
pub(crate) fn put(bytes: &[u8], chunk: &mut [u8]) -> usize
    ensures { result ≤ length chunk.new }
{
    let count = bytes.len().min(chunk.len());
    chunk[..count].copy_from_slice(&bytes[..count]);
    count
}

/// Three clients, of whom nothing came.
pub(crate) fn some_clients(rt: &impl Abort, alloc: Global) -> Clients
    ensures ready { (calls : ℕ) → All (λ client. IsReady calls client) result.all }
{
    let limits = ClientLimits::beside_others();
    let mut clients = Clients::new(alloc, limits).expect(rt, "memory for clients");
    clients.join().expect(rt, "memory for a client");
    clients.join().expect(rt, "memory for a client");
    clients.join().expect(rt, "memory for a client");
    clients
}

/// A turn that takes these pieces.
pub(crate) fn turn<K: Keeper>(
    rt: &impl Abort,
    pieces: &[Piece<'_>],
    clients: &mut Clients,
    primary: &mut Primary<MemoryStore, K>,
) -> Result<(), TurnFault>
    requires ready { All (λ client. IsReady (length primary.old.log) client) clients.old.all }
    ensures ready { OnOk result (All (λ client. IsReady (length primary.new.log) client) clients.new.all) }
{
    let mut script = Script { pieces, taken: 0 };
    let ended = clients.turn(&mut script, primary, &mut InlineCrew);
    expect(rt, script.taken == pieces.len(), "all that came is taken");
    ended
}

/// A client sends this in one piece, and goes on. No flush of it follows, so that node 0 is offered what it
/// asked, and doesn't finish it.
pub(crate) fn ask_unflushed(
    rt: &impl Abort,
    alloc: Global,
    primary: &mut Primary<MemoryStore>,
    sent: &[u8],
) {
    let mut clients = some_clients(rt, alloc);
    turn(rt, &[(0, Some(sent))], &mut clients, primary).expect(rt, "a turn");
}

// What a client was given by now, and how it ended.
#[derive(Clone, Copy)]
struct Told<'a> {
    outcomes: &'a [&'a [u8]],
    ending: Option<Result<(), SessionFault>>,
}

// Checks what the client at a place was given, and how it ended.
fn expect_told(rt: &impl Abort, alloc: Global, clients: &Clients, place: usize, told: &Told) {
    assert!(rt; place < clients.len(), "a client");
    let outcomes = joined(rt, alloc, told.outcomes);
    expect_bytes(rt, clients.outcomes(place), &outcomes, "what it is given");
    expect(rt, clients.ending(place) == told.ending, "how it ends");
}

// Three clients, their turns, what each is given after them, and how many calls the log has then.
#[derive(Clone, Copy)]
struct Case<'a> {
    first: &'a [Piece<'a>],
    then: &'a [Piece<'a>],
    told: &'a [Told<'a>],
    calls: u64,
}

fn expect_case(rt: &impl Abort, alloc: Global, case: &Case) {
    let mut primary = opened(rt, alloc);
    let mut clients = some_clients(rt, alloc);
    turn(rt, case.first, &mut clients, &mut primary).expect(rt, "a turn");
    turn(rt, case.then, &mut clients, &mut primary).expect(rt, "another turn");
    expect(rt, case.told.len() == clients.len(), "each client");
    for (place, told) in case.told.iter().enumerate() {
        expect_told(rt, alloc, &clients, place, told);
    }
    expect(rt, primary.log().length() == case.calls, "the log");
}

// Client 8 asks for alice's balance by its request 1.
const ASK: &[u8] = b"\x00\x10\x01\x00\x00\x00\x08\x00\x00\x00\x01\x01\x05alice";

// The same, and a flush.
const ASK_FLUSH: &[u8] = b"\x00\x10\x01\x00\x00\x00\x08\x00\x00\x00\x01\x01\x05alice\x00\x01\x06";

// The same, and then bytes that no frame begins with.
const ASK_FLUSH_BAD: &[u8] =
    b"\x00\x10\x01\x00\x00\x00\x08\x00\x00\x00\x01\x01\x05alice\x00\x01\x06\x00\x01\x09";

// Its outcome, 151.00.
const SHOWN: &[u8] =
    b"\x00\x13\x05\x00\x00\x00\x08\x00\x00\x00\x01\x00\x00\x00\x00\x00\x00\x00\x00\x3a\xfc";

// Its outcome before alice's deposit, 150.00.
const BEFORE: &[u8] =
    b"\x00\x13\x05\x00\x00\x00\x08\x00\x00\x00\x01\x00\x00\x00\x00\x00\x00\x00\x00\x3a\x98";

// The outcome of client 7's deposit for alice.
const DONE: &[u8] =
    b"\x00\x13\x05\x00\x00\x00\x07\x00\x00\x00\x01\x00\x01\x00\x00\x00\x00\x00\x00\x00\x00";

const SILENT: Told<'static> = Told {
    outcomes: &[],
    ending: None,
};

const CASES: &[Case<'static>] = &[
    // Two ask under one key, each flushes by itself, and the third is silent.
    Case {
        first: &[(0, Some(OTHER)), (1, Some(ASK_FLUSH)), (0, Some(ASK_FLUSH))],
        then: &[],
        told: &[
            Told {
                outcomes: &[DONE, SHOWN],
                ending: None,
            },
            Told {
                outcomes: &[SHOWN],
                ending: None,
            },
            SILENT,
        ],
        calls: 2,
    },
    // The same, but the second one sends garbage after its flush. The first is served on.
    Case {
        first: &[(0, Some(OTHER)), (1, Some(ASK_FLUSH_BAD))],
        then: &[(0, Some(ASK_FLUSH))],
        told: &[
            Told {
                outcomes: &[DONE, SHOWN],
                ending: None,
            },
            Told {
                outcomes: &[SHOWN],
                ending: Some(Err(SessionFault::Frame(FrameFault::UnknownTag))),
            },
            SILENT,
        ],
        calls: 2,
    },
    // The order of arrival is that of the log.
    Case {
        first: &[(1, Some(ASK_FLUSH)), (0, Some(OTHER))],
        then: &[(0, Some(FLUSH)), (0, Some(b"")), (2, None)],
        told: &[
            Told {
                outcomes: &[DONE],
                ending: Some(Ok(())),
            },
            Told {
                outcomes: &[BEFORE],
                ending: None,
            },
            Told {
                outcomes: &[],
                ending: Some(Err(SessionFault::Device)),
            },
        ],
        calls: 2,
    },
    // One ends within a frame, another sends a frame that no client sends: their asks before stay.
    Case {
        first: &[(0, Some(OTHER)), (1, Some(ASK)), (2, Some(ASK_FLUSH))],
        then: &[(0, Some(b"\x00")), (0, Some(b"")), (1, Some(ENTRY))],
        told: &[
            Told {
                outcomes: &[],
                ending: Some(Err(SessionFault::Frame(FrameFault::Short))),
            },
            Told {
                outcomes: &[],
                ending: Some(Err(SessionFault::Unexpected)),
            },
            Told {
                outcomes: &[SHOWN],
                ending: None,
            },
        ],
        calls: 2,
    },
    // A frame that comes in two pieces, and bytes of a client that isn't there.
    Case {
        first: &[(0, Some(b"\x00")), (9, Some(ASK_FLUSH))],
        then: &[(0, Some(b"\x01\x06")), (9, Some(b""))],
        told: &[SILENT, SILENT, SILENT],
        calls: 0,
    },
];

#[test]
fn each_client_is_given_its_own_outcomes(rt: HostRuntime) {
    for case in CASES {
        expect_case(&rt, rt.alloc(), case);
    }
}
