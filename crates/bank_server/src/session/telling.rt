//! Telling a client the outcomes of its asks.
ghost use Rattle.std.specs.Prelude.{◌≡◌, OnOk};
ghost use Rattle.std.specs.Io.KnownBytes.{Appends};
ghost use Rattle.bank_server.specs.Primary.{HasWholeLog};
ghost use Rattle.bank_server.specs.ServesOn.{ServesOn};
ghost use Rattle.bank_server.specs.SessionFaults.{as_session, session_of_turn_fault};

use super::turn_fault::TurnFault;
use crate::node0::Primary;
use cown_workers::Crew;
use sb_ask_log::Keeper;
use sb_checkpoint::CheckpointStore;
use sb_text::write_whole;
use std::io;
use std::io::Write;

/// Has the whole log executed and kept, after which outcomes may be told.
pub(crate) fn settle_and_keep<S: CheckpointStore, K: Keeper, C: Crew>(
    primary: &mut Primary<S, K>,
    crew: &mut C,
) -> Result<(), TurnFault>
    ensures whole_log { OnOk result (HasWholeLog primary.new) }
    ensures kept { OnOk result (K.model.Keeps primary.new.keeper primary.new.log) }
    ensures log { primary.new.log ≡ primary.old.log }
    // The bank goes on, after a fault too.
    ensures serves { ServesOn K.model C.keeps (as_session session_of_turn_fault result) primary.old primary.new }
{
    primary.settle(crew)?;
    primary.keep()?;
    Ok(())
}

/// The writer of a client who is served alone. Nothing can be written to it but outcomes by a log that
/// is kept.
#[derive(Drop)]
pub(crate) struct OutcomeWriter<'a, W> {
    writer: &'a mut W,
}

impl<'a, W: Write> OutcomeWriter<'a, W> {
    /// Over this writer.
    pub(crate) fn new(writer: &'a mut W) -> OutcomeWriter<'a, W>
        ensures same_writer { result.writer.ghost_name ≡ writer.entry.ghost_name }
        ensures unwritten { result.writer.now ≡ writer.old }
    {
        OutcomeWriter { writer }
    }

    /// Writes outcomes by the bank's log, all of which its keeper keeps.
    #[inline]
    pub(crate) fn write_outcomes<S: CheckpointStore, K: Keeper>(
        &mut self,
        outcomes: &[u8],
        _primary: &Primary<S, K>,
    ) -> io::Result<()>
        requires kept { K.model.Keeps _primary.now.keeper _primary.now.log }
        ensures written { OnOk result (Appends (W.contents self.old.writer.now)
            (W.contents self.new.writer.now) outcomes.now) }
        ensures same_writer { self.new.writer.ghost_name ≡ self.old.writer.ghost_name }
    {
        write_whole(self.writer, outcomes)
    }
}
