//! Opening a bank on its log's file.
ghost use Rattle.std.specs.Prelude.{IfOk};
ghost use Rattle.sb_ask_log.specs.Telling.{IsResumable, KeepsAsks};
ghost use Rattle.bank_server.specs.Execution.{HasNoEntries};
ghost use Rattle.bank_service.specs.OpenedBank.{IsBankOn};

use crate::found_bank::FoundBank;
use bank_server::Primary;
use sb_ask_log::AskLog;
use sb_checkpoint::CheckpointStore;
use sb_log::LogFile;
use std::alloc::{AllocError, Global};

/// Opens the bank that was found in a file: its log goes on in this file, and node 0 is at its opening,
/// with nothing of the log yet. The file and the store aren't touched.
///
/// Fails if memory is refused.
pub fn open_on_file<F: LogFile, S: CheckpointStore>(
    alloc: Global,
    file: F,
    found: FoundBank,
    store: S,
) -> Result<Primary<S, AskLog<F>>, AllocError>
    requires { IsResumable F.IsHonest F.model file found.log.end found.log.text.items
        found.log.log.value.log }
    ensures opened { IfOk result (IsBankOn found.log.text.items found.log.log.value.log found.opening store file) }
    ensures kept { IfOk result (λ bank.
        KeepsAsks F.IsHonest F.model bank.keeper found.log.log.value.log) }
    ensures no_entries { IfOk result (λ bank. HasNoEntries bank.node.board) }
{
    let FoundBank { log, opening, .. } = found;
    let (keeper, log) = AskLog::resume(alloc, file, log);
    Primary::on_log(alloc, opening, store, log, keeper)
}
