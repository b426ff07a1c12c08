//! Served banks whose log is in a file that fails at a call, and then crashes: what was told is kept.
ghost use Rattle.std.specs.Prelude.{length};
ghost use Rattle.std.specs.List.{All};
ghost use Rattle.bank_server.specs.Clients.{IsReady};
ghost use Rattle.sb_ask_log.specs.Keeping.{KeepsBeginning};

use crate::bank::{OPENING, expect, expect_bytes, joined};
use crate::clients::{some_clients, turn};
use crate::devices::BytewiseReader;
use crate::keepers::UNKEPT;
use crate::wire::{DEPOSIT, DONE, FLUSH, expect_session, frames};
use bank_server::{Clients, Primary, SessionFault, TurnFault};
use sb_ask_log::{AskLog, Keeper, create_asks, is_opening_text, recover_asks};
use sb_calls::{Key, read_call};
use sb_checkpoint::MemoryStore;
use sb_log::{FaultyFile, LogFault, MemoryFile};
use sb_rows::read_opening;
use sb_sequencer::Sequencer;
use std::alloc::Global;
use std::process::Abort;

// Keeps a log by a keeper that outlives the bank, so that its file can be looked at afterwards.
#[derive(Drop)]
struct LentKeeper<'a, K: Keeper> {
    keeper: &'a mut K,
}

impl<K: Keeper> Keeper for LentKeeper<'_, K> {
    ghost model = { record {
      Keeps = λ lent. K.model.Keeps lent.keeper.now;
      opening = λ lent. K.model.opening lent.keeper.now;
      fails = K.model.fails;
      has_failed = λ lent. K.model.has_failed lent.keeper.now;
    } };

    fn keep(&mut self, log: &Sequencer) -> Result<(), LogFault> {
        self.keeper.keep(log)
    }

    fn digest(&self) -> Option<[u8; 32]> {
        self.keeper.digest()
    }
}

// Who is served: a client alone, or three at once.
#[derive(Clone, Copy)]
enum Served {
    Alone,
    AtOnce,
}

// Three pieces that are sent, how that ends, and what is told.
#[derive(Clone, Copy)]
struct Case<'a> {
    pieces: [&'a [u8]; 3],
    ends: Result<(), SessionFault>,
    told: &'a [u8],
}

// A client sends the pieces, a byte in each read.
fn serve_alone<K: Keeper>(
    rt: &impl Abort,
    alloc: Global,
    case: &Case,
    primary: &mut Primary<MemoryStore, K>,
) {
    let sent = joined(rt, alloc, &case.pieces);
    let reader = &mut BytewiseReader {
        left: &sent,
        reads: u32::MAX,
        fails: false,
    };
    expect_session(rt, alloc, primary, reader, case.ends, case.told);
}

// Three clients send a piece each, in a turn of its own.
fn serve_at_once<K: Keeper>(
    rt: &impl Abort,
    alloc: Global,
    case: &Case,
    primary: &mut Primary<MemoryStore, K>,
) {
    let mut clients = some_clients(rt, alloc);
    let ended = take_turns(rt, case.pieces, &mut clients, primary);
    let ended = ended.map_err(SessionFault::from);
    expect(rt, ended == case.ends, "how the turns end");
    let mut told = Vec::new(alloc);
    for place in 0..clients.len() {
        let given = clients.outcomes(place);
        told.extend_from_slice(given).expect(rt, "memory for bytes");
    }
    expect_bytes(rt, &told, case.told, "what the clients are told");
}

// The turns of the three clients. After a fault there are no more.
fn take_turns<K: Keeper>(
    rt: &impl Abort,
    pieces: [&[u8]; 3],
    clients: &mut Clients,
    primary: &mut Primary<MemoryStore, K>,
) -> Result<(), TurnFault>
    requires ready { All (λ client. IsReady (length primary.old.log) client) clients.old.all }
{
    turn(rt, &[(0, Some(pieces[0]))], clients, primary)?;
    turn(rt, &[(1, Some(pieces[1]))], clients, primary)?;
    turn(rt, &[(2, Some(pieces[2]))], clients, primary)
}

// Serves the bank on this log.
fn serve<K: Keeper>(
    rt: &impl Abort,
    alloc: Global,
    served: Served,
    case: &Case,
    log: Box<Sequencer>,
    keeper: &mut K,
)
    requires { KeepsBeginning K.model keeper.old log.value.log }
{
    let opening = read_opening(alloc, OPENING).expect(rt, "an opening");
    let store = MemoryStore::new(alloc);
    let lent = LentKeeper { keeper };
    let mut primary = Primary::on_log(alloc, opening, store, log, lent).expect(rt, "a bank");
    match served {
        Served::Alone => serve_alone(rt, alloc, case, &mut primary),
        Served::AtOnce => serve_at_once(rt, alloc, case, &mut primary),
    }
}

// Whatever a crash keeps: what is read back has the asks whose outcomes were told, and is those up to a
// flush.
fn expect_kept(rt: &impl Abort, alloc: Global, file: &MemoryFile, told: u64, ends: [u64; 4]) {
    let call = read_call(b"deposit bob 5.00").expect(rt, "a call");
    // Of what is synced nothing is lost.
    let synced = file.crashed(alloc, 0).expect(rt, "memory for a file");
    for kept in synced.bytes().len()..=file.bytes().len() {
        let mut left = file.crashed(alloc, kept).expect(rt, "memory for a file");
        let found = recover_asks(alloc, &mut left).expect(rt, "a log");
        let count = found.log.length();
        assert!(rt; told <= count && ends.contains(&count), "{kept} bytes kept");
        for (request, number) in (0..u32::MAX).zip(1..=count) {
            let key = Key { client: 7, request };
            let is_sent = found.log.ask_of(number) == Some((key, call));
            assert!(rt; is_sent, "{kept} bytes kept");
        }
    }
}

// Serves this many asks by each flush, on a new log whose file fails at a call that a flush makes.
fn expect_fault(
    rt: &impl Abort,
    alloc: Global,
    served: Served,
    [one, two, all]: [u32; 3],
    at: u64,
    kept: usize,
) {
    assert!(rt; is_opening_text(alloc, OPENING).is_ok_and(|is| is));
    let text = Vec::from_slice(alloc, OPENING).expect(rt, "memory for a text");
    // An append and a sync make the log, and each flush takes two more.
    let mut file = FaultyFile::new(MemoryFile::new(alloc), at.saturating_add(2), kept);
    let made = create_asks(alloc, &mut file, text).expect(rt, "a log");
    let (mut log, asks) = AskLog::resume(alloc, file, made);
    let (count, ends) = match at {
        1 | 2 => (0, UNKEPT),
        3 | 4 => (one, UNKEPT),
        5 | 6 => (two, UNKEPT),
        _ => (all, Ok(())),
    };
    let first = frames(rt, alloc, 0..one, DEPOSIT, FLUSH);
    let second = frames(rt, alloc, one..two, DEPOSIT, FLUSH);
    let third = frames(rt, alloc, two..all, DEPOSIT, FLUSH);
    let pieces = [first.as_slice(), &second, &third];
    let told = &frames(rt, alloc, 0..count, DONE, b"");
    let case = Case { pieces, ends, told };
    serve(rt, alloc, served, &case, asks, &mut log);
    let file = log.into_file().into_inner();
    let ends = [0, u64::from(one), u64::from(two), u64::from(all)];
    expect_kept(rt, alloc, &file, u64::from(count), ends);
}

// Each call fails in turn, or none does, and leaves each number of the bytes of a record.
fn expect_faults(rt: &impl Abort, alloc: Global, served: Served, flushes: [u32; 3]) {
    for at in 1..8 {
        for kept in 0..113 {
            expect_fault(rt, alloc, served, flushes, at, kept);
        }
    }
}

// The same if one to three asks come before each of three flushes.
fn expect_all(rt: &impl Abort, alloc: Global, served: Served) {
    for one in 1..4u32 {
        for two in one + 1..one + 4 {
            for all in two + 1..two + 4 {
                expect_faults(rt, alloc, served, [one, two, all]);
            }
        }
    }
}

#[test]
fn a_session_over_a_file_that_fails(rt: HostRuntime) {
    expect_all(&rt, rt.alloc(), Served::Alone);
}

#[test]
fn turns_over_a_file_that_fails(rt: HostRuntime) {
    expect_all(&rt, rt.alloc(), Served::AtOnce);
}
