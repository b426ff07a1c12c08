//! The sessions of clients who are served at once, over connections in memory.
ghost use Rattle.std.specs.Prelude.{◌≡◌, ◌∷◌, ℕ, [], length, None, true};
ghost use Rattle.bank_clients.specs.Sessions.{AreListed, AreReady};

use crate::bank::{expect, expect_bytes, joined, opened};
use crate::clients::put;
use crate::wire::{DEPOSIT, DONE, FLUSH, OTHER};
use bank_clients::{Connections, Over, Sessions};
use bank_server::{Arrival, Arrivals, AskCounts, ClientLimits, Primary, SessionFault};
use cown_workers::InlineCrew;
use sb_checkpoint::MemoryStore;
use sb_frames::FrameFault;
use std::alloc::Global;
use std::io;
use std::process::Abort;

// What there is before a turn: at most two pieces that arrive, each at its place, and how many bytes each
// connection takes at once. No bytes are an end, and `None` is a connection that fails.
#[derive(Clone, Copy)]
struct Round<'a> {
    pieces: &'a [(usize, Option<&'a [u8]>)],
    takes: usize,
}

const QUIET: Round<'static> = Round {
    pieces: &[],
    takes: 1_000,
};

// Connections in memory, at two places.
#[derive(Drop)]
struct Wires<'a> {
    rounds: &'a [Round<'a>],
    // How many rounds have begun, and how many pieces were taken in this one.
    begun: usize,
    taken: usize,
    sent: Vec<Vec<u8>>,
    left: Vec<(usize, bool, AskCounts)>,
}

impl<'a> Wires<'a> {
    // The round that has begun.
    fn now(&self) -> Round<'a> {
        match self.rounds.get(self.begun.saturating_sub(1)) {
            Some(round) => *round,
            None => QUIET,
        }
    }
}

impl Arrivals for Wires<'_> {
    ghost coming = { λ wires. None };

    ghost here = { λ wires. None };

    ghost outgoing = { λ wires. record { sent = None; full = λ place. true } };

    fn next(&mut self, chunk: &mut [u8]) -> Option<Arrival> {
        let (client, piece) = *self.now().pieces.get(self.taken)?;
        self.taken = self.taken.saturating_add(1);
        let read = match piece {
            Some(bytes) => Some(put(bytes, chunk)),
            None => None,
        };
        Some(Arrival { client, read })
    }
}

impl Connections for Wires<'_> {
    ghost writable_places = { λ wires. 0 ∷ 1 ∷ [] };

    fn wait(&mut self) -> io::Result<()> {
        self.begun = self.begun.saturating_add(1);
        self.taken = 0;
        Ok(())
    }

    fn writable(&self) -> &[usize] {
        &[0, 1]
    }

    fn send(&mut self, place: usize, bytes: &[u8]) -> usize {
        let count = bytes.len().min(self.now().takes);
        let Some(sent) = self.sent.get_mut(place) else {
            return 0;
        };
        match sent.extend_from_slice(&bytes[..count]) {
            Ok(()) => count,
            Err(_) => 0,
        }
    }

    fn leave(&mut self, place: usize, is_at_fault: bool, counts: AskCounts) {
        let _ = self.left.push((place, is_at_fault, counts));
    }
}

// Three rounds at most, what each of two connections took by their end, whose sessions were over and how, in order,
// the asks of each of these, and the length of the log then.
#[derive(Clone, Copy)]
struct Case<'a> {
    rounds: &'a [Round<'a>],
    sent: [&'a [&'a [u8]]; PLACES],
    over: &'a [Over],
    counts: &'a [AskCounts],
    calls: u64,
}

// How many places there are.
const PLACES: usize = 2;

// Serves a round, and leaves the clients whose sessions are over.
fn serve_round<A: Connections>(
    rt: &impl Abort,
    sessions: &mut Sessions<A>,
    primary: &mut Primary<MemoryStore>,
    found: &mut Vec<Over>,
)
    requires ready { AreReady A.outgoing A.writable_places (length primary.old.log) sessions.old }
    ensures ready { AreReady A.outgoing A.writable_places (length primary.new.log) sessions.new }
{
    sessions.wait().expect(rt, "a round");
    sessions
        .serve(primary, &mut InlineCrew)
        .expect(rt, "a turn");
    leave_next(rt, sessions, found);
    leave_next(rt, sessions, found);
    expect(rt, sessions.next_over().is_none(), "two places");
}

// Leaves a client whose session is over, if there is one.
fn leave_next<A: Connections>(rt: &impl Abort, sessions: &mut Sessions<A>, found: &mut Vec<Over>)
    requires listed { AreListed sessions.old.leaving sessions.old.clients.all }
    ensures ready { (calls : ℕ) → AreReady A.outgoing A.writable_places calls sessions.old
        → AreReady A.outgoing A.writable_places calls sessions.new }
{
    if let Some(over) = sessions.next_over() {
        sessions.leave(over);
        found.push(over).expect(rt, "memory");
    }
}

fn expect_case(rt: &impl Abort, alloc: Global, case: &Case) {
    let mut primary = opened(rt, alloc);
    let mut sent = Vec::new(alloc);
    for _ in 0..PLACES {
        sent.push(Vec::new(alloc)).expect(rt, "memory");
    }
    let wires = Wires {
        rounds: case.rounds,
        begun: 0,
        taken: 0,
        sent,
        left: Vec::new(alloc),
    };
    let limits = ClientLimits::beside_others();
    let mut sessions = Sessions::open(alloc, wires, PLACES, limits).expect(
        rt,
        "memory for sessions",
    );
    let mut over = Vec::new(alloc);
    serve_round(rt, &mut sessions, &mut primary, &mut over);
    serve_round(rt, &mut sessions, &mut primary, &mut over);
    serve_round(rt, &mut sessions, &mut primary, &mut over);
    let wires = sessions.connections();
    assert!(rt; over.as_slice() == case.over, "{over:?}");
    for (bytes, wanted) in wires.sent.iter().zip(case.sent) {
        let wanted = joined(rt, alloc, wanted);
        expect_bytes(rt, bytes, &wanted, "what a connection took");
    }
    expect(rt, wires.left.len() == case.counts.len(), "who is left");
    for ((place, is_at_fault, counts), (over, asks)) in wires
        .left
        .iter()
        .zip(over.iter().zip(case.counts))
    {
        let broke_a_rule = matches!(
            over.ending,
            Err(SessionFault::Frame(_) | SessionFault::Unexpected | SessionFault::TooMany)
        );
        expect(rt, *place == over.place, "who is left");
        expect(rt, *is_at_fault == broke_a_rule, "who is notified");
        expect(rt, counts == asks, "whose asks are told");
    }
    expect(rt, primary.log().length() == case.calls, "the log");
}

const ENDED: Result<(), SessionFault> = Ok(());

const NO_ASK: AskCounts = AskCounts {
    entries: 0,
    repeats: 0,
    refusals: 0,
};

const ONE_NEW: AskCounts = AskCounts {
    entries: 1,
    ..NO_ASK
};

const ONE_REPEAT: AskCounts = AskCounts {
    repeats: 1,
    ..NO_ASK
};

// The outcome of client 7's deposit for alice.
const OTHER_DONE: &[u8] =
    b"\x00\x13\x05\x00\x00\x00\x07\x00\x00\x00\x01\x00\x01\x00\x00\x00\x00\x00\x00\x00\x00";

// Twice that deposit, and another call under its key.
const THREE_OTHERS: &[u8] =
    b"\x00\x18\x01\x00\x00\x00\x07\x00\x00\x00\x01\x02\x05alice\x00\x00\x00\x00\x00\x00\x00\x64\
    \x00\x18\x01\x00\x00\x00\x07\x00\x00\x00\x01\x02\x05alice\x00\x00\x00\x00\x00\x00\x00\x64\
    \x00\x10\x01\x00\x00\x00\x07\x00\x00\x00\x01\x01\x05alice";

const CASES: &[Case<'static>] = &[
    // A connection takes ten bytes at once, so that it takes rounds. Meanwhile the other is told all.
    Case {
        rounds: &[
            Round {
                pieces: &[(0, Some(OTHER)), (0, Some(FLUSH))],
                takes: 10,
            },
            Round {
                pieces: &[(1, Some(DEPOSIT)), (0, Some(b""))],
                takes: 10,
            },
            Round {
                pieces: &[(1, Some(FLUSH))],
                ..QUIET
            },
        ],
        sent: [&[OTHER_DONE], &[DONE]],
        over: &[Over {
            place: 0,
            ending: ENDED,
        }],
        counts: &[ONE_NEW],
        calls: 2,
    },
    // A place is another client's then: it is told its own outcomes alone, and the same ask is no new
    // one. The first one broke a rule.
    Case {
        rounds: &[
            Round {
                pieces: &[(1, Some(OTHER)), (1, Some(b"\x00\x01\x09"))],
                ..QUIET
            },
            Round {
                pieces: &[(1, Some(OTHER)), (1, Some(FLUSH))],
                ..QUIET
            },
            Round {
                pieces: &[(1, Some(b""))],
                ..QUIET
            },
        ],
        sent: [&[], &[OTHER_DONE]],
        over: &[
            Over {
                place: 1,
                ending: Err(SessionFault::Frame(FrameFault::UnknownTag)),
            },
            Over {
                place: 1,
                ending: ENDED,
            },
        ],
        counts: &[ONE_NEW, ONE_REPEAT],
        calls: 1,
    },
    // A connection that takes nothing isn't over until it fails. What its client asked stands.
    Case {
        rounds: &[
            Round {
                pieces: &[(0, Some(DEPOSIT)), (0, Some(FLUSH))],
                takes: 0,
            },
            Round {
                pieces: &[(0, Some(b""))],
                takes: 0,
            },
            Round {
                pieces: &[(0, None)],
                takes: 0,
            },
        ],
        sent: [&[], &[]],
        over: &[Over {
            place: 0,
            ending: Err(SessionFault::Device),
        }],
        counts: &[ONE_NEW],
        calls: 1,
    },
    // A connection that fails ends its client at once, and no other.
    Case {
        rounds: &[
            Round {
                pieces: &[(1, Some(DEPOSIT)), (0, None)],
                ..QUIET
            },
            Round {
                pieces: &[(1, Some(FLUSH))],
                ..QUIET
            },
        ],
        sent: [&[], &[DONE]],
        over: &[Over {
            place: 0,
            ending: Err(SessionFault::Device),
        }],
        counts: &[NO_ASK],
        calls: 1,
    },
    // Each client's asks are its own, also where another one's come between them: one is new, the others
    // are repeats or a mismatch.
    Case {
        rounds: &[
            Round {
                pieces: &[(0, Some(OTHER)), (1, Some(THREE_OTHERS))],
                ..QUIET
            },
            Round {
                pieces: &[(0, Some(OTHER)), (1, Some(b""))],
                ..QUIET
            },
            Round {
                pieces: &[(0, Some(b""))],
                ..QUIET
            },
        ],
        sent: [&[], &[]],
        over: &[
            Over {
                place: 1,
                ending: ENDED,
            },
            Over {
                place: 0,
                ending: ENDED,
            },
        ],
        counts: &[
            AskCounts {
                entries: 0,
                repeats: 2,
                refusals: 1,
            },
            AskCounts {
                entries: 1,
                repeats: 1,
                refusals: 0,
            },
        ],
        calls: 1,
    },
];

#[test]
fn connections_take_what_is_theirs(rt: HostRuntime) {
    for case in CASES {
        expect_case(&rt, rt.alloc(), case);
    }
}
