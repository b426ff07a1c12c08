//! A whole log, executed once.
ghost use Rattle.std.specs.Prelude.{◌≤◌, IfOk, IfErr};
ghost use Rattle.bank_server.specs.Execution.{HasNoEntries};
ghost use Rattle.bank_server.specs.Faults.{IsNodesFault};
ghost use Rattle.bank_server.specs.inner.RunFaults.{IsTeamFault};
ghost use Rattle.bank_server.specs.NodeTurns.{TurnsLead};
ghost use Rattle.bank_server.specs.Primary.{RunsLog, log_ops};

use super::primary::Primary;
use super::team::{Duty, WorkerCount, with_team};
use crate::fault::RunFault;
use crate::followers::{Followers, ReadyFollowers};
use cown_workers::{Crew, Gate};
use sb_calls::{REPLICAS, WORKERS};
use sb_checkpoint::CheckpointStore;
use sb_replica::Replica;
use std::alloc::Global;
use std::sync::Wait;
use std::thread::Threads;
use std::time::Clock;

// The duty to execute the log of a node 0 that has nothing of it yet, and to compare that node with
// the followers.
#[derive(Drop)]
struct WholeLog<S: CheckpointStore> {
    primary: Primary<S>,
}

impl<S: CheckpointStore> Duty for WholeLog<S> {
    type Answer = Result<Box<Replica<S>>, RunFault>;

    ghost ready = { λ duty. HasNoEntries duty.primary.node.board };

    ghost does = { λ duty nodes workers keeps answer. IfOk answer
        (λ node. RunsLog duty.primary.log duty.primary.node node.value
        × TurnsLead (log_ops duty.primary.node.names duty.primary.log) duty.primary.node node.value)
        × IfErr answer (IsTeamFault nodes keeps) };

    fn carry_out<R, C>(
        self,
        _rt: &R,
        followers: &mut Followers<'_, R>,
        crew: &mut C,
    ) -> Result<Box<Replica<S>>, RunFault>
    where
        R: Threads + Wait + Clock,
        C: Crew + WorkerCount,
    {
        let node = self.primary.execute_with_followers(crew, followers)?;
        followers.compare(&node)?;
        Ok(node)
    }
}

/// Has node 0, which has nothing of the log yet, execute all of it with this many workers. Its
/// followers execute the log too, each in a thread of its own. Gives node 0 back once the followers
/// agree with it.
///
/// Fails with
/// - [`RunFault::Strayed`] if a follower can't be started, or differs from node 0, for instance
///   because it began with another opening,
/// - [`RunFault::CrewGone`] if a worker can't be started, or the workers left something unfinished,
/// - [`RunFault::OutOfMemory`] if memory is refused.
pub fn carry_out_log<H, S, G>(
    rt: &H,
    alloc: Global,
    primary: Primary<S>,
    followers: ReadyFollowers,
    workers: usize,
    gate: &G,
) -> Result<Box<Replica<S>>, RunFault>
where
    H: Threads + Wait + Clock + Sync,
    S: CheckpointStore,
    G: Gate + Sync,
    requires nodes { followers.nodes ≤ REPLICAS }
    requires workers { workers ≤ WORKERS }
    requires opened { HasNoEntries primary.node.board }
    // It began as this node 0 and executed the ops of the log, as if its calls were run one by one.
    ensures run { IfOk result (λ node. RunsLog primary.log primary.node node.value) }
    // It was offered the log's entries and exchanged jobs with the crew.
    ensures turns { IfOk result (λ node. TurnsLead (log_ops primary.node.names primary.log) primary.node node.value) }
    ensures fault { IfErr result (IsNodesFault followers.nodes workers) }
{
    with_team(rt, alloc, followers, workers, gate, WholeLog { primary })?
}
