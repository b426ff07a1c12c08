//! A session of two asks, one of them repeated.

use crate::bytewise::BytewiseReader;
use crate::fault::CaseFault;
use crate::opening::read;
use crate::report::Report;
use bank_server::{Primary, SessionFault, serve_session};
use cown_workers::InlineCrew;
use sb_checkpoint::MemoryStore;
use sb_rows::Opening;
use std::alloc::{AllocError, Global};

// Client 7 asks for alice's balance, deposits 5.00 for bob, flushes, asks for the balance again,
// and flushes.
const SENT: &[u8] = b"\x00\x10\x01\x00\x00\x00\x07\x00\x00\x00\x01\x01\x05alice\
\x00\x16\x01\x00\x00\x00\x07\x00\x00\x00\x02\x02\x03bob\x00\x00\x00\x00\x00\x00\x01\xf4\
\x00\x01\x06\
\x00\x10\x01\x00\x00\x00\x07\x00\x00\x00\x01\x01\x05alice\
\x00\x01\x06";

/// Reports what is sent to the client.
pub(crate) fn play_case(alloc: Global, report: &mut Report) -> Result<(), CaseFault> {
    let mut primary = opened(alloc, report)?;
    match serve(alloc, &mut primary, report) {
        Err(SessionFault::OutOfMemory) => {
            report.refused("serve_session")?;
            serve(alloc, &mut primary, report)?;
        }
        ended => ended?,
    }
    Ok(report.add_bytes()?)
}

fn serve(
    alloc: Global,
    primary: &mut Primary<MemoryStore>,
    report: &mut Report,
) -> Result<(), SessionFault> {
    let mut reader = BytewiseReader { left: SENT };
    serve_session(
        alloc,
        &mut reader,
        &mut report.written,
        primary,
        &mut InlineCrew,
    )
}

// The bank that is served.
fn opened(alloc: Global, report: &mut Report) -> Result<Box<Primary<MemoryStore>>, CaseFault> {
    let opening = read(alloc, report)?;
    match open(alloc, opening) {
        Err(_) => {
            report.refused("Primary::open")?;
            let opening = read(alloc, report)?;
            Ok(open(alloc, opening)?)
        }
        opened => Ok(opened?),
    }
}

fn open(alloc: Global, opening: Opening) -> Result<Box<Primary<MemoryStore>>, AllocError> {
    let primary = Primary::open(alloc, opening, MemoryStore::new(alloc))?;
    Ok(Box::new(alloc, primary)?)
}
