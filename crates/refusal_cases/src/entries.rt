//! A replica that receives a stream of entries.

use crate::amounts::push_amounts;
use crate::fault::CaseFault;
use crate::frames::feed;
use crate::opening::read;
use crate::report::Report;
use cown_board::Runs;
use cown_workers::{InlineCrew, drain};
use sb_calls::{Call, Reply};
use sb_checkpoint::MemoryStore;
use sb_frames::{AskOutcome, Frame, Stream};
use sb_replica::{ReceiveFault, Received, Replica};
use sb_rows::Opening;
use schedule_text::push_numbered;
use std::alloc::{AllocError, Global};

// The log makes room for them several times.
const ENTRIES: u8 = 70;

// An entry that brings alice a cent, without its number.
const ENTRY: [u8; 26] =
    *b"\x00\x18\x02\x00\x00\x00\x00\x00\x00\x00\x00\x02\x05alice\x00\x00\x00\x00\x00\x00\x00\x01";

// Where the last byte of the number stands.
const NUMBER_AT: usize = 10;

/// Reports how many entries the replica receives, and what it has once they are executed.
pub(crate) fn play_case(alloc: Global, report: &mut Report) -> Result<(), CaseFault> {
    let mut replica = opened(alloc, report)?;
    let mut stream = Stream::new(alloc);
    for number in 1..=ENTRIES {
        let mut bytes = ENTRY;
        bytes[NUMBER_AT] = number;
        feed(&mut stream, &bytes, report)?;
    }
    receive(&mut replica, &mut stream, report)?;
    report_replica(&mut replica, report)
}

// The replica at the opening.
fn opened(alloc: Global, report: &mut Report) -> Result<Box<Replica<MemoryStore>>, CaseFault> {
    let opening = read(alloc, report)?;
    match open(alloc, opening) {
        Err(_) => {
            report.refused("Replica::open")?;
            let opening = read(alloc, report)?;
            Ok(open(alloc, opening)?)
        }
        opened => Ok(opened?),
    }
}

fn open(alloc: Global, opening: Opening) -> Result<Box<Replica<MemoryStore>>, AllocError> {
    let store = MemoryStore::new(alloc);
    let replica = Replica::open(alloc, 0, opening.directory, opening.columns, store)?;
    Ok(Box::new(alloc, replica)?)
}

// The replica receives the whole stream. If it is refused memory, the same call goes on.
fn receive(
    replica: &mut Replica<MemoryStore>,
    stream: &mut Stream,
    report: &mut Report,
) -> Result<(), CaseFault> {
    // The checker takes the stream apart, and needs the types spelled out.
    let _parts: Option<(Frame, Call, Reply, AskOutcome)> = None;
    // As many entries, and then nothing more.
    for _ in 0..ENTRIES + 1 {
        let received = match replica.receive(stream) {
            Err(ReceiveFault::OutOfMemory) => {
                report.refused("Replica::receive")?;
                replica.receive(stream)?
            }
            received => received?,
        };
        match received {
            Received::Entry(_) => {}
            Received::Short => return Ok(()),
            Received::Other(_) | Received::Busy => return Err(CaseFault::Unfinished),
        }
    }
    Err(CaseFault::Unfinished)
}

fn report_replica(
    replica: &mut Replica<MemoryStore>,
    report: &mut Report,
) -> Result<(), CaseFault> {
    push_numbered(b"received ", replica.length(), &mut report.text)?;
    report.text.push(b'\n')?;
    if drain(replica, &mut InlineCrew).is_err() {
        return Err(CaseFault::Unfinished);
    }
    let columns = replica.final_columns().ok_or(CaseFault::Unfinished)?;
    push_amounts("savings", columns.savings(), &mut report.text)?;
    push_amounts("checking", columns.checking(), &mut report.text)?;
    Ok(())
}
