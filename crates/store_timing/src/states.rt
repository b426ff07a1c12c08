//! States: a checkpoint of one replica, adopted by another in place of the log's entries.

use crate::bench_result::BenchResult;
use crate::checkpoints::{BALANCES, written};
use crate::fault::Fault;
use crate::replicas::{entry_frames, measured, open_replica, receive_all};
use crate::words::Absence;
use cown_board::Board;
use lane_audit::bank_total;
use sb_calls::Op;
use sb_checkpoint::{MemoryStore, read_checkpoint};
use sb_replica::Replica;
use sb_rows::CUSTOMERS;
use std::alloc::Global;
use std::time::{Clock, Duration, Instant};

// The balances of each customer before any entry is received.
const NOTHING: &str = "0.00 0.00";

/// A replica at its opening adopts a state of the greatest size this often. The result is the
/// length of its log, and the total of all balances.
pub(crate) fn adopt(clock: &impl Clock, alloc: Global, count: u32) -> Result<BenchResult, Fault> {
    let (bytes, _) = written(alloc)?;
    let mut replica = open_replica(alloc, CUSTOMERS as u32, BALANCES)?;
    let mut time = Duration::ZERO;
    for _ in 0..count {
        replica.restart()?;
        time = time.saturating_add(adopt_once(clock, &mut replica, &bytes)?);
    }
    measured(&replica, time)
}

// The time that adopting a state takes.
fn adopt_once(
    clock: &impl Clock,
    replica: &mut Replica<MemoryStore>,
    state: &[u8],
) -> Result<Duration, Fault> {
    let start = Instant::now(clock)?;
    replica.adopt(state)?;
    Ok(start.elapsed(clock)?)
}

/// The same checkpoint is read and a board opened on it, this often. The result is the same.
pub(crate) fn open(clock: &impl Clock, alloc: Global, count: u32) -> Result<BenchResult, Fault> {
    let (bytes, opening_total) = written(alloc)?;
    let mut last = BenchResult {
        length: 0,
        sum: 0,
        time: Duration::ZERO,
    };
    for _ in 0..count {
        let opened = open_once(clock, alloc, &bytes, opening_total)?;
        last = BenchResult {
            time: last.time.saturating_add(opened.time),
            ..opened
        };
    }
    Ok(last)
}

// A board on a checkpoint, and the time that it took.
fn open_once(
    clock: &impl Clock,
    alloc: Global,
    bytes: &[u8],
    opening_total: i64,
) -> Result<BenchResult, Fault> {
    let start = Instant::now(clock)?;
    let board = board_on(alloc, bytes, opening_total)?;
    let time = start.elapsed(clock)?;
    Ok(BenchResult {
        length: board.length(),
        sum: bank_total(board.final_columns().ok_or(Fault::Unfinished)?),
        time,
    })
}

fn board_on(alloc: Global, bytes: &[u8], opening_total: i64) -> Result<Box<Board<Op>>, Fault> {
    let checkpoint = read_checkpoint(alloc, bytes, CUSTOMERS, opening_total)?;
    let (columns, replies) = checkpoint.into_parts();
    let length = replies.len() as u64;
    let board = Board::open(alloc, columns, length, replies)?;
    Ok(Box::new(alloc, board)?)
}

/// A replica that was away adopts the state of one that wasn't. The result is the length of its
/// log, and the total of all balances.
pub(crate) fn by_state(
    clock: &impl Clock,
    alloc: Global,
    absence: Absence,
) -> Result<BenchResult, Fault> {
    let state = state_after(alloc, absence)?;
    let mut replica = replica_before(alloc, absence)?;
    let time = adopt_once(clock, &mut replica, &state)?;
    measured(&replica, time)
}

/// It receives the entries that it missed, and executes them. The result is the same.
pub(crate) fn by_entries(
    clock: &impl Clock,
    alloc: Global,
    absence: Absence,
) -> Result<BenchResult, Fault> {
    let mut replica = replica_before(alloc, absence)?;
    let frames = entry_frames(alloc, replica.directory(), absence.before, absence.entries)?;
    let start = Instant::now(clock)?;
    receive_all(alloc, &mut replica, &frames)?;
    let time = start.elapsed(clock)?;
    measured(&replica, time)
}

// The replica when it leaves.
fn replica_before(alloc: Global, absence: Absence) -> Result<Box<Replica<MemoryStore>>, Fault> {
    let mut replica = open_replica(alloc, absence.customers, NOTHING)?;
    let frames = entry_frames(alloc, replica.directory(), 0, absence.before)?;
    receive_all(alloc, &mut replica, &frames)?;
    Ok(replica)
}

// The state of one that missed nothing.
fn state_after(alloc: Global, absence: Absence) -> Result<Vec<u8>, Fault> {
    let mut donor = replica_before(alloc, absence)?;
    let frames = entry_frames(alloc, donor.directory(), absence.before, absence.entries)?;
    receive_all(alloc, &mut donor, &frames)?;
    donor.mark()?;
    let (_, state) = donor.kept_state()?.ok_or(Fault::Unfinished)?;
    Ok(state)
}
