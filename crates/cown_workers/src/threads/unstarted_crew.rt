//! A crew whose workers have no threads yet.
ghost use Rattle.std.specs.Prelude.{◌≡◌, ◌≤◌, All, length, is_some, IfOk, IfErr};
ghost use Rattle.cown_workers.specs.inner.PassPicks.{HasAllPasses, picked_with};

use crate::crew_fault::CrewFault;
use crate::gate::Gate;
use crate::threads::bench_crew::BenchCrew;
use crate::threads::owner_side::OwnerSide;
use crate::threads::thread_pool::{ThreadPool, ThreadRoom};
use crate::threads::worker::Worker;
use cown_bench::{WORKERS, WorkerPass};
use std::marker::Model;
use std::sync::Wait;
use std::thread::{Scope, Threads};
use std::time::Clock;

// Everything of a crew but its threads. Contracts see it as the crew that it becomes.
#[derive(Drop)]
pub(crate) struct UnstartedCrew<'a, R: Wait + Clock, G: Gate> {
    room: ThreadRoom,
    owner_side: OwnerSide<'a, R>,
    gate: &'a G,
    // The owner's own pass, if it helps.
    own_pass: Option<WorkerPass>,
    workers: Vec<Worker<'a, R, G>>,
}

impl<'a, R: Wait + Clock, G: Gate> Model for UnstartedCrew<'a, R, G> {
    ghost use Rattle.std.specs.Prelude.{◌≡◌, ◌≤◌, All, length, is_some};
    ghost use Rattle.sb_calls.specs.declared.nodes.TheConstants.{WORKERS};
    ghost use Rattle.cown_workers.specs.BenchCrews.{BenchCrewOf};
    ghost use Rattle.cown_workers.specs.inner.PassPicks.{HasAllPasses, picked_with};

    ghost Value = { BenchCrewOf };

    ghost view = { λ unstarted_crew. record {
      workers = length unstarted_crew.workers.items;
      owner_helps = is_some unstarted_crew.own_pass;
      offered = unstarted_crew.owner_side.pass.offered;
      picked = picked_with unstarted_crew.own_pass;
    } };

    ghost invariant = { λ unstarted_crew. HasAllPasses unstarted_crew.owner_side.bench.now
        unstarted_crew.owner_side.pass unstarted_crew.own_pass (length unstarted_crew.workers.items)
        × All (λ worker. worker.bench.now ≡ unstarted_crew.owner_side.bench.now) unstarted_crew.workers.items
        × (length unstarted_crew.workers.items ≤ WORKERS) };
}

impl<'a, R: Wait + Clock, G: Gate> UnstartedCrew<'a, R, G> {
    // All passes of the bench are with these.
    pub(crate) fn new(
        room: ThreadRoom,
        owner_side: OwnerSide<'a, R>,
        gate: &'a G,
        own_pass: Option<WorkerPass>,
        workers: Vec<Worker<'a, R, G>>,
    ) -> UnstartedCrew<'a, R, G>
        requires passes { HasAllPasses owner_side.bench.now owner_side.pass own_pass
            (length workers.items) }
        requires workers { All (λ worker. worker.bench.now ≡ owner_side.bench.now) workers.items }
        requires limit { length workers.items ≤ WORKERS }
        ensures { result ≡ record {
          workers = length workers.entry.items;
          owner_helps = is_some own_pass;
          offered = owner_side.entry.pass.offered;
          picked = picked_with own_pass;
        } }
    {
        UnstartedCrew {
            room,
            owner_side,
            gate,
            own_pass,
            workers,
        }
    }
}

impl<'a, R: Threads + Wait + Clock + Sync, G: Gate + Sync> UnstartedCrew<'a, R, G> {
    // Starts a thread for each worker. If one can't be started, the others are stopped and
    // joined. It takes no memory, so that is its only fault.
    pub(crate) fn start_crew<E>(
        self,
        scope: &'a Scope<'a, E>,
    ) -> Result<BenchCrew<'a, R, G>, CrewFault>
        ensures crew { IfOk result (λ crew. crew ≡ self.entry) }
        ensures fault { IfErr result (λ fault. fault ≡ CrewFault.CrewGone) }
    {
        let UnstartedCrew {
            room,
            owner_side,
            gate,
            own_pass,
            workers,
        } = self;
        let wanted = workers.len();
        let thread_pool = room.start_threads(scope, owner_side.bench, workers);
        if thread_pool.len() < wanted {
            stop_and_join(owner_side, own_pass, thread_pool);
            return Err(CrewFault::CrewGone);
        }
        Ok(BenchCrew::new(owner_side, gate, own_pass, thread_pool))
    }
}

// Stops and joins the workers that have a thread.
fn stop_and_join<R: Threads + Wait + Clock>(
    owner_side: OwnerSide<'_, R>,
    own_pass: Option<WorkerPass>,
    thread_pool: ThreadPool,
)
    requires { owner_side.pass.bench ≡ owner_side.bench.now }
{
    let rt = owner_side.rt;
    let _ = owner_side.stop_workers(thread_pool.len());
    let _ = thread_pool.join_all(rt, own_pass);
}
