//! Executing the ops of a log on a replica.
ghost use Rattle.std.specs.Prelude.{◌≡◌, ◌≢◌, ◌≤◌, ◌<◌, ◌+◌, List, [], ◌∷◌, false, length, map, slice_get, Some, IfErr, IfNone, OnOk, OnErr};
ghost use Rattle.sb_rows.specs.Rows.{SameCustomers};
ghost use Rattle.sb_calls.specs.Op.{IsOpWithin, op_of};
ghost use Rattle.sb_calls.specs.declared.op.Op.{Op as AnyOp};
ghost use Rattle.sb_calls.specs.declared.ask.Key.{Key};
ghost use Rattle.sb_calls.specs.declared.call.Call.{Call as AnyCall};
ghost use Rattle.cown_board.specs.Board.{length_of, unfinished_of};
ghost use Rattle.cown_workers.specs.Draining.{PreservesLog, HasNoneOut};
ghost use Rattle.sb_replica.specs.Replica.{rest_of};
ghost use Rattle.bank_server.specs.inner.Appends.{AreOpsWithin, AppendsOps, HasOpsAt};
ghost use Rattle.sb_sequencer.specs.Numbering.{calls_of};
ghost use Rattle.bank_server.specs.Execution.{HasNoEntries};
ghost use Rattle.bank_server.specs.Faults.{IsExecutionFault};
ghost use Rattle.bank_server.specs.NodeTurns.{TurnsLead};
ghost use Rattle.bank_server.specs.Primary.{RunsLog};

use super::resolving::resolve_part;
use crate::followers::Followers;
use cown_board::Runs;
use cown_workers::{Crew, CrewFault, CrewGone, drain};
use sb_calls::{Call, LOG_CALLS, Op};
use sb_checkpoint::CheckpointStore;
use sb_replica::{Offered, Replica};
use sb_sequencer::Sequencer;
use std::alloc::Global;
use std::sync::Wait;

// The number of entries in a part. The followers are sent a part before it is submitted, and its
// names are looked up, so that the directory and the queues don't push each other out of the
// processor's caches.
pub(crate) const PART: usize = 1024;

/// Executes the calls of a log on a replica that has none yet, each as soon as its cowns are free.
/// The followers are sent each part of the log before it is submitted, and execute it too. Without
/// listeners no log is needed.
///
/// Fails with
/// - [`CrewFault::CrewGone`] if the crew leaves something unfinished, which one that keeps no job
///   never does,
/// - [`CrewFault::OutOfMemory`] if memory is refused.
pub(crate) fn execute_calls<S: CheckpointStore, C: Crew, R: Wait>(
    alloc: Global,
    calls: &[Call],
    log: Option<&Sequencer>,
    replica: &mut Replica<S>,
    crew: &mut C,
    followers: &mut Followers<'_, R>,
) -> Result<(), CrewFault>
    requires opened { HasNoEntries replica.old.board }
    requires customers { SameCustomers replica.old.names replica.old.board.opening }
    requires limit { length calls.now ≤ LOG_CALLS }
    requires log_given { IfNone log (followers.old.listening ≡ 0) }
    // The result is as if the calls were executed one by one.
    ensures run { (log : List (Key × AnyCall)) → calls_of log ≡ calls.now
        → OnOk result (RunsLog log replica.old replica.new) }
    ensures turns { OnOk result (TurnsLead (map (op_of replica.old.names) calls.now) replica.old replica.new) }
    ensures sent { OnOk result (length calls.now ≤ followers.new.sent) }
    ensures unchanged { followers.new ≡ record followers.old { sent = followers.new.sent } }
    ensures fault { IfErr result (IsExecutionFault C.keeps replica.old.board) }
{
    replica.reserve(calls.len())?;
    submit_parts(alloc, calls, log, replica, crew, followers)?;
    followers.flush()?;
    execute_unfinished(replica, crew)
}

// Submits these calls in parts, each after it was sent to the followers and its names were looked
// up.
fn submit_parts<S: CheckpointStore, C: Crew, R: Wait>(
    alloc: Global,
    calls: &[Call],
    log: Option<&Sequencer>,
    replica: &mut Replica<S>,
    crew: &mut C,
    followers: &mut Followers<'_, R>,
) -> Result<(), CrewFault>
    requires limit { length_of replica.old.board + length calls.now ≤ LOG_CALLS }
    requires log_given { IfNone log (followers.old.listening ≡ 0) }
    ensures put { OnOk result
        (AppendsOps (map (op_of replica.old.names) calls.now) replica.old.board replica.new.board) }
    ensures turns { (log : List AnyOp)
        → HasOpsAt log (length_of replica.old.board) (map (op_of replica.old.names) calls.now)
        → OnOk result (TurnsLead log replica.old replica.new) }
    ensures rest { rest_of replica.new ≡ rest_of replica.old }
    ensures sent { OnOk result (length calls.now ≤ followers.new.sent) }
    ensures unchanged { followers.new ≡ record followers.old { sent = followers.new.sent } }
    ensures fault { IfErr result (IsExecutionFault C.keeps replica.old.board) }
{
    let mut ops = Vec::with_capacity(alloc, PART)?;
    let mut done = 0;
    while done < calls.len() {
        let end = done + PART.min(calls.len() - done);
        followers.send_up_to(log, end)?;
        resolve_part(&calls[done..end], replica.directory(), &mut ops)?;
        submit_all(&ops, replica, crew)?;
        done = end;
    }
    Ok(())
}

/// Appends these ops to the log. When the board is full, everything unfinished is executed first.
///
/// Fails as [`execute_calls`] does.
pub(crate) fn submit_all<S: CheckpointStore, C: Crew>(
    ops: &[Op],
    replica: &mut Replica<S>,
    crew: &mut C,
) -> Result<(), CrewFault>
    requires limit { length_of replica.old.board + length ops.now ≤ LOG_CALLS }
    requires within { AreOpsWithin (length replica.old.names) ops.now }
    ensures put { OnOk result (AppendsOps ops.now replica.old.board replica.new.board) }
    ensures turns { (log : List AnyOp) → HasOpsAt log (length_of replica.old.board) ops.now
        → OnOk result (TurnsLead log replica.old replica.new) }
    ensures rest { rest_of replica.new ≡ rest_of replica.old }
    ensures fault { IfErr result (IsExecutionFault C.keeps replica.old.board) }
{
    for op in ops {
        submit_op(op, replica, crew)?;
    }
    Ok(())
}

/// Appends an op to the log. When the board is full, everything unfinished is executed first.
///
/// Fails as [`execute_calls`] does. The log is as it was then.
pub(crate) fn submit_op<S: CheckpointStore, C: Crew>(
    op: &Op,
    replica: &mut Replica<S>,
    crew: &mut C,
) -> Result<(), CrewFault>
    requires room { length_of replica.old.board < LOG_CALLS }
    requires within { IsOpWithin (length replica.old.names) op.now }
    ensures put { OnOk result (AppendsOps (op.now ∷ []) replica.old.board replica.new.board) }
    ensures turns { (log : List AnyOp) → slice_get log (length_of replica.old.board) ≡ Some op.now
        → TurnsLead log replica.old replica.new }
    // After a fault the log is as it was.
    ensures err { OnErr result (PreservesLog replica.old.board replica.new.board) }
    ensures none_out { C.keeps ≡ false → HasNoneOut replica.old.board → HasNoneOut replica.new.board }
    ensures rest { rest_of replica.new ≡ rest_of replica.old }
    ensures fault { IfErr result (IsExecutionFault C.keeps replica.old.board) }
{
    let number = replica.length() + 1;
    match replica.offer_entry(number, *op)? {
        Offered::Next => return Ok(()),
        Offered::Busy(_) => execute_unfinished(replica, crew)?,
        Offered::Repeat | Offered::Gap(_) | Offered::Held(_) => unreachable!(),
    }
    match replica.offer_entry(number, *op)? {
        Offered::Next => Ok(()),
        // Nothing is unfinished by now, and the log is as long as it was.
        Offered::Repeat | Offered::Gap(_) | Offered::Held(_) | Offered::Busy(_) => unreachable!(),
    }
}

/// Executes everything that is unfinished.
///
/// Fails with [`CrewFault::CrewGone`] if the crew leaves something unfinished.
pub(crate) fn execute_unfinished<S: CheckpointStore, C: Crew>(
    replica: &mut Replica<S>,
    crew: &mut C,
) -> Result<(), CrewFault>
    ensures idle { OnOk result (unfinished_of replica.new.board ≡ 0) }
    ensures turns { (log : List AnyOp) → TurnsLead log replica.old replica.new }
    ensures none_out { C.keeps ≡ false → HasNoneOut replica.old.board → HasNoneOut replica.new.board }
    ensures log { PreservesLog replica.old.board replica.new.board }
    ensures rest { rest_of replica.new ≡ rest_of replica.old }
    ensures fault { IfErr result (IsExecutionFault C.keeps replica.old.board) }
{
    match drain(replica, crew) {
        Ok(()) => Ok(()),
        Err(CrewGone) => Err(CrewFault::CrewGone),
    }
}
