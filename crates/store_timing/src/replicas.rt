//! Replicas that are measured, and the entries that they receive.
ghost use Rattle.std.specs.Prelude.{◌≡◌};

use crate::bench_result::BenchResult;
use crate::fault::Fault;
use crate::opening::open_bank;
use cown_board::Runs;
use cown_workers::{InlineCrew, drain};
use lane_audit::bank_total;
use sb_amount::Cents;
use sb_calls::{Call, WireReply};
use sb_checkpoint::MemoryStore;
use sb_frames::{AskOutcome, Frame, Stream, encode};
use sb_replica::{Received, Replica};
use sb_rows::Directory;
use std::alloc::Global;
use std::time::Duration;

// The number of bytes that come at once.
const MESSAGE: usize = 64 * 1_024;
// The next entry's customer is this many places after the last one's.
const APART: u64 = 7_919;

/// A replica of this many customers with these balances, at the opening. Its store is empty.
pub(crate) fn open_replica(
    alloc: Global,
    customers: u32,
    balances: &str,
) -> Result<Box<Replica<MemoryStore>>, Fault> {
    let opening = open_bank(alloc, customers, balances)?;
    let store = MemoryStore::new(alloc);
    let replica = Replica::open(alloc, 0, opening.directory, opening.columns, store)?;
    Ok(Box::new(alloc, replica)?)
}

/// The frames of this many entries after this length of the log: cents for the customers in turn.
pub(crate) fn entry_frames(
    alloc: Global,
    directory: &Directory,
    before: u32,
    entries: u32,
) -> Result<Vec<u8>, Fault> {
    let mut frames = Vec::new(alloc);
    for entry in 0..entries {
        let number = u64::from(before) + u64::from(entry) + 1;
        push_entry(directory, number, &mut frames)?;
    }
    Ok(frames)
}

// The frame of the entry with this number.
fn push_entry(directory: &Directory, number: u64, frames: &mut Vec<u8>) -> Result<(), Fault> {
    let customers = directory.len() as u64;
    let place = (number.wrapping_mul(APART))
        .checked_rem(customers)
        .ok_or(Fault::Bank)?;
    let name = directory.name(place as u32).ok_or(Fault::Bank)?;
    let cent = Cents::new(1).ok_or(Fault::Bank)?;
    let call = Call::DepositChecking(name, cent);
    frames.extend_from_slice(encode(&Frame::Entry { number, call }).as_slice())?;
    Ok(())
}

/// A replica receives frames, and executes all entries in place.
pub(crate) fn receive_all(
    alloc: Global,
    replica: &mut Replica<MemoryStore>,
    frames: &[u8],
) -> Result<(), Fault> {
    let mut stream = Stream::new(alloc);
    for message in frames.chunks(MESSAGE) {
        stream.feed(message)?;
        receive_message(replica, &mut stream)?;
    }
    drain(replica, &mut InlineCrew)?;
    Ok(())
}

// It receives all whole frames of a stream. When its board is full, everything is executed.
fn receive_message(replica: &mut Replica<MemoryStore>, stream: &mut Stream) -> Result<(), Fault> {
    // The checker takes the frame apart, and needs the types spelled out.
    let _parts: Option<(Frame, Call, WireReply, AskOutcome)> = None;
    // A message has fewer entries than bytes, also if everything is executed before each.
    for _ in 0..MESSAGE {
        match replica.receive(stream)? {
            Received::Entry(_) => {}
            Received::Short => return Ok(()),
            Received::Busy => drain(replica, &mut InlineCrew)?,
            Received::Other(_) => return Err(Fault::Unfinished),
        }
    }
    Err(Fault::Unfinished)
}

/// The length and the total of a replica at the end, and the time that it took.
pub(crate) fn measured(
    replica: &Replica<MemoryStore>,
    time: Duration,
) -> Result<BenchResult, Fault> {
    let columns = replica.final_columns().ok_or(Fault::Unfinished)?;
    Ok(BenchResult {
        length: replica.length(),
        sum: bank_total(columns),
        time,
    })
}
