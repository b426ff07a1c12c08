//! Listing a log in a folder of the system, or cutting it.
ghost use Rattle.std.specs.Prelude.{IfErr};
ghost use Rattle.bank_service.specs.ListFaults.{IsListingFault};
ghost use Rattle.smallbank.specs.inner.LogFaults.{IsFaultOfAction};

use bank_program::{LOG, LogReport, REST, SystemRest, Trouble, are_open, cut_log, output};
use bank_service::{ListFault, list_log};
use program_words::{Listing, LogAction};
use sb_log::{LogFault, Reason, SystemFile};

/// Lists the log in a folder, or cuts it. A fault of a file is told on standard error, and an error of a
/// standard stream is noted.
pub(crate) fn obey_log(
    rt: &HostRuntime,
    folder: &str,
    action: LogAction,
    trouble: &Trouble<'_>,
) -> Result<(), ListFault>
    ensures fault { IfErr result (IsFaultOfAction action) }
{
    let reason = Reason::new();
    let done = match action {
        LogAction::List(listing) => list(rt, folder, listing, &reason, trouble),
        LogAction::Cut => cut_end(rt, folder, &reason, trouble),
    };
    let told = match done {
        Err(ListFault::Log(fault)) => Some((LOG, fault)),
        Err(ListFault::Rest) => Some((REST, LogFault::Device)),
        _ => None,
    };
    if let Some((name, fault)) = told {
        let error = reason.error();
        let report = LogReport {
            folder,
            name,
            fault,
            error,
        };
        // If standard error fails too, the status still says the fault.
        let _ = eprintln!(rt; "{report}");
    }
    done
}

// Lists the log in a folder.
fn list(
    rt: &HostRuntime,
    folder: &str,
    listing: Listing,
    reason: &Reason,
    trouble: &Trouble<'_>,
) -> Result<(), ListFault>
    ensures fault { IfErr result IsListingFault }
{
    let mut file = SystemFile::open_to_read(rt, folder, LOG, reason)?;
    list_log(rt.alloc(), &mut file, listing, &mut output(rt, trouble))
}

// Cuts the log in a folder. A file would take the place of a standard stream that is closed, so all of them
// must be open.
fn cut_end(
    rt: &HostRuntime,
    folder: &str,
    reason: &Reason,
    trouble: &Trouble<'_>,
) -> Result<(), ListFault> {
    if !are_open(rt, trouble) {
        return Err(ListFault::Device);
    }
    // A log that isn't there isn't made.
    drop(SystemFile::open_to_read(rt, folder, LOG, reason)?);
    let mut file = SystemFile::open(rt, folder, LOG, reason)?;
    let mut rest = SystemRest::new(rt, folder, reason);
    cut_log(rt.alloc(), &mut file, &mut rest, &mut output(rt, trouble))
}
