//! What a bank does after a session.
ghost use Rattle.std.specs.Prelude.{◌≡◌, ◌≤◌, false, length, true, IfErr, OnOk};
ghost use Rattle.cown_workers.specs.Draining.{HasNoneOut};
ghost use Rattle.bank_server.specs.Primary.{HasWholeLog};
ghost use Rattle.sb_sequencer.specs.Numbering.{IsLog};
ghost use Rattle.bank_service.specs.ServedBank.{IsBankAfter};
ghost use Rattle.bank_service.specs.ServeFaults.{IsFinishFault};

use crate::serve_fault::ServeFault;
use bank_server::{Followers, Primary, RunFault, SaveFault};
use cown_workers::Crew;
use sb_ask_log::Keeper;
use sb_checkpoint::CheckpointStore;
use std::sync::Wait;

/// Has the whole log kept and executed by node 0, sends it to the followers, and puts a checkpoint
/// into node 0's store if the bank saves.
///
/// Fails with
/// - [`ServeFault::Log`] if the log can't be kept,
/// - [`ServeFault::Run`] if the crew is gone, the store's device fails, or memory is refused,
/// - [`ServeFault::ReadBack`] if the store doesn't give back what was put.
pub(crate) fn finish_session<R: Wait, S: CheckpointStore, K: Keeper, C: Crew>(
    primary: &mut Primary<S, K>,
    followers: &mut Followers<'_, R>,
    saves: bool,
    crew: &mut C,
) -> Result<(), ServeFault>
    ensures log { primary.new.log ≡ primary.old.log }
    ensures bank_after { OnOk result (IsBankAfter S.model K.model saves 1 primary.old primary.new) }
    // The whole log was sent to the followers.
    ensures sent { OnOk result (length primary.new.log ≤ followers.new.sent) }
    ensures nodes { followers.new.nodes ≡ followers.old.nodes }
    ensures fault { IfErr result (IsFinishFault (C.keeps ≡ false → ¬ HasNoneOut primary.old.node.board)
        saves K.model.fails) }
{
    primary.settle(crew)?;
    primary.keep()?;
    followers.feed(primary.log())?;
    if saves { save(primary) } else { Ok(()) }
}

// Puts a checkpoint of node 0 into its store.
fn save<S: CheckpointStore, K: Keeper>(primary: &mut Primary<S, K>) -> Result<(), ServeFault>
    requires one_each { IsLog primary.old.log }
    requires whole_log { HasWholeLog primary.old }
    requires kept { K.model.Keeps primary.old.keeper primary.old.log }
    ensures log { primary.new.log ≡ primary.old.log }
    ensures bank_after { OnOk result (IsBankAfter S.model K.model true 1 primary.old primary.new) }
    ensures fault { IfErr result (IsFinishFault ⊥ true K.model.fails) }
{
    match primary.save() {
        Ok(_) => Ok(()),
        Err(SaveFault::Device) => Err(ServeFault::Run(RunFault::Device)),
        Err(SaveFault::ReadBack) => Err(ServeFault::ReadBack),
        Err(SaveFault::OutOfMemory) => Err(ServeFault::Run(RunFault::OutOfMemory)),
        // Nothing is unfinished.
        Err(SaveFault::Busy) => unreachable!(),
    }
}
