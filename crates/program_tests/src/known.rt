//! Connections in memory, of which the contracts know what comes and what they take.
ghost use Rattle.std.specs.Prelude.{◌≡◌, Some, [], false, length, map};

use crate::served::{ASKED, DEPOSIT, GARBAGE, OPENING, TOLD};
use crate::serving::{PLAN, bank_of};
use bank_clients::Connections;
use bank_program::serve_bank;
use bank_server::{Arrival, Arrivals, AskCounts};
use program_words::Plan;
use std::alloc::Global;
use std::collections::VecDeque;
use std::io;
use std::io::ErrorKind;
use std::process::Abort;

/// Pieces that come, each from the client at a place, and what was sent to each place. No bytes are an end.
#[derive(Drop)]
struct Known<'a, R> {
    rt: &'a R,
    coming: VecDeque<(usize, &'a [u8])>,
    sent: Vec<(usize, Vec<u8>)>,
}

impl<R: Abort> Arrivals for Known<'_, R> {
    ghost coming = { λ known. Some (map (λ piece. (piece.0, Some piece.1.now)) known.coming.items) };

    ghost here = { λ known. Some (length known.coming.items) };

    ghost outgoing = { λ known. record {
      sent = Some (map (λ sent. (sent.0, sent.1.items)) known.sent.items);
      full = λ place. false;
    } };

    fn next(&mut self, chunk: &mut [u8]) -> Option<Arrival> {
        let (client, piece) = self.coming.pop_front()?;
        assert!(self.rt; piece.len() <= chunk.len());
        chunk[..piece.len()].copy_from_slice(piece);
        Some(Arrival {
            client,
            read: Some(piece.len()),
        })
    }
}

impl<R: Abort> Connections for Known<'_, R> {
    ghost writable_places = { λ known. [] };

    fn wait(&mut self) -> io::Result<()> {
        if self.coming.is_empty() {
            return Err(io::Error::from(ErrorKind::Other));
        }
        Ok(())
    }

    fn writable(&self) -> &[usize] {
        &[]
    }

    fn send(&mut self, place: usize, bytes: &[u8]) -> usize {
        let bytes = Vec::from_slice(*self.sent.allocator(), bytes).expect(self.rt, "memory");
        let count = bytes.len();
        self.sent.push((place, bytes)).expect(self.rt, "memory");
        count
    }

    fn leave(&mut self, _place: usize, _is_at_fault: bool, _counts: AskCounts) {}
}

// What was sent to a place.
fn sent_to(rt: &impl Abort, alloc: Global, place: usize, sent: &[(usize, Vec<u8>)]) -> Vec<u8> {
    let mut all = Vec::new(alloc);
    for (to, bytes) in sent {
        if *to == place {
            all.extend_from_slice(bytes).expect(rt, "memory");
        }
    }
    all
}

// Two clients at once, and one more at the first one's place. Each gets the outcomes of its own session.
#[test]
fn each_client_gets_its_outcomes(rt: HostRuntime) {
    let alloc = rt.alloc();
    let mut coming = VecDeque::new(alloc);
    for piece in [
        (0, DEPOSIT),
        (1, ASKED),
        (0, b"".as_slice()),
        (1, b""),
        (0, GARBAGE),
    ] {
        coming.push_back(piece).expect(&rt, "room");
    }
    let known = Known {
        rt: &rt,
        coming,
        sent: Vec::new(alloc),
    };
    let plan = Plan {
        sessions: 3,
        clients: Some(2),
        ..PLAN
    };
    let bank = bank_of(&rt, alloc, OPENING);
    let served = serve_bank(&rt, alloc, 4000, known, bank, plan, Vec::new(alloc));
    let served = served.expect(&rt, "served");
    let sent = &served.sessions.connections().sent;
    assert!(&rt; sent_to(&rt, alloc, 0, sent).is_empty());
    assert!(&rt; sent_to(&rt, alloc, 1, sent).as_slice() == TOLD);
}
