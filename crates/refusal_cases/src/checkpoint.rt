//! A checkpoint that is read in either layout, and written again.
ghost use Rattle.std.specs.Prelude.{IfOk};
ghost use Rattle.sb_checkpoint.specs.Checkpoint.{IsCheckpoint};

use crate::fault::CaseFault;
use crate::report::Report;
use sb_checkpoint::{Checkpoint, CheckpointFault, read_checkpoint, write_checkpoint};
use std::alloc::{AllocError, Global};

// The opening total of the three customers.
const OPENING_TOTAL: i64 = 18_000;

// Three customers and five replies.
const FIRST: &[u8] = b"SBCKPT01\x00\x00\x00\x00\x00\x00\x00\x05\x00\x00\x00\x03\
\x00\x00\x00\x00\x00\x00\x00\x00\x00\x00\x00\x00\x00\x00\x00\x00\x00\x00\x00\x00\x00\x00\x00\x00\
\x00\x00\x00\x00\x00\x00\x00\x00\x00\x00\x00\x00\x00\x00\x09\xc4\x00\x00\x00\x00\x00\x00\x00\x00\
\x00\x00\x00\x00\x00\x00\x09\xc4\
\x00\x00\x00\x00\x00\x00\x00\x3a\x98\
\x01\x00\x00\x00\x00\x00\x00\x00\x00\
\x01\x00\x00\x00\x00\x00\x00\x00\x00\
\x01\x00\x00\x00\x00\x00\x00\x00\x00\
\x01\x00\x00\x00\x00\x00\x00\x00\x00";

// The same, with the opening total.
const SECOND: &[u8] = b"SBCKPT02\x00\x00\x00\x00\x00\x00\x00\x05\x00\x00\x00\x03\
\x00\x00\x00\x00\x00\x00\x00\x00\x00\x00\x00\x00\x00\x00\x00\x00\x00\x00\x00\x00\x00\x00\x00\x00\
\x00\x00\x00\x00\x00\x00\x00\x00\x00\x00\x00\x00\x00\x00\x09\xc4\x00\x00\x00\x00\x00\x00\x00\x00\
\x00\x00\x00\x00\x00\x00\x09\xc4\x00\x00\x00\x00\x00\x00\x46\x50\
\x00\x00\x00\x00\x00\x00\x00\x3a\x98\
\x01\x00\x00\x00\x00\x00\x00\x00\x00\
\x01\x00\x00\x00\x00\x00\x00\x00\x00\
\x01\x00\x00\x00\x00\x00\x00\x00\x00\
\x01\x00\x00\x00\x00\x00\x00\x00\x00";

/// Reports the bytes that it is written as, once for each layout.
pub(crate) fn play_case(alloc: Global, report: &mut Report) -> Result<(), CaseFault> {
    play_layout(alloc, FIRST, report)?;
    play_layout(alloc, SECOND, report)
}

fn play_layout(alloc: Global, bytes: &[u8], report: &mut Report) -> Result<(), CaseFault> {
    let checkpoint = read(alloc, bytes, report)?;
    match write(alloc, &checkpoint, report) {
        Err(_) => {
            report.refused("write_checkpoint")?;
            write(alloc, &checkpoint, report)?;
        }
        Ok(()) => {}
    }
    Ok(report.add_bytes()?)
}

fn read(alloc: Global, bytes: &[u8], report: &mut Report) -> Result<Checkpoint, CaseFault>
    ensures { IfOk result IsCheckpoint }
{
    match read_checkpoint(alloc, bytes, 3, OPENING_TOTAL) {
        Err(CheckpointFault::OutOfMemory) => {
            report.refused("read_checkpoint")?;
            Ok(read_checkpoint(alloc, bytes, 3, OPENING_TOTAL)?)
        }
        read => Ok(read?),
    }
}

fn write(alloc: Global, checkpoint: &Checkpoint, report: &mut Report) -> Result<(), AllocError>
    requires { IsCheckpoint checkpoint.now }
{
    let bytes = write_checkpoint(
        alloc,
        checkpoint.columns(),
        OPENING_TOTAL,
        checkpoint.replies(),
    )?;
    report.written.extend_from_slice(&bytes)
}
