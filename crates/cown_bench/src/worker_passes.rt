//! The workers' passes: they are split from the owner's pass and absorbed again.
ghost use Rattle.std.specs.Prelude.{◌≡◌, ◌-◌, ◌≤◌, [], All, length, vec_capacity};
ghost use Rattle.crossbeam_queue.specs.Passes.{IsPassOf, view};
ghost use Rattle.cown_bench.specs.BenchPasses.{picked_of};
ghost use Rattle.cown_bench.specs.inner.PassViews.{HasRoom, all_parts, owner_view};
ghost use Rattle.sb_calls.specs.declared.nodes.TheConstants.{WORKERS};

use crate::pass_history::PassHistory;
use crate::passes::{OwnerPass, WorkerPass};
use crate::rule::{OnePart, Queue};
use crate::work::Work;
use crossbeam_queue::Pass;

// Puts this many workers' passes into a list with room for them.
pub(crate) fn split_passes(
    queue: &Queue,
    owner: &mut Pass<Work, PassHistory>,
    workers: usize,
    passes: &mut Vec<WorkerPass>,
)
    requires limit { workers ≤ WORKERS }
    requires empty { passes.old.items ≡ [] }
    requires room { workers ≤ vec_capacity passes.old }
    requires queue { IsPassOf queue.now owner.old }
    requires complete { view owner.old ≡ owner_view all_parts [] [] [] }
    ensures queue { IsPassOf queue.now owner.new }
    ensures rest { view owner.new ≡ owner_view (all_parts - workers) [] [] [] }
    ensures passes { All (λ pass. pass ≡
        record { bench = queue.now.table.shared.table_id; picked = [] }) passes.new.items }
    ensures as_many { length passes.new.items ≡ workers }
{
    for _ in 0..workers {
        let pass = queue.another::<OnePart>(owner);
        passes.push_reserved(WorkerPass { pass });
    }
}

// Takes all workers' passes into the owner's, which then knows all. The owner's room for what is
// left comes with it.
pub(crate) fn absorb_passes(
    queue: &Queue,
    owner: OwnerPass,
    workers: Vec<WorkerPass>,
) -> (Pass<Work, PassHistory>, Vec<Work>)
    requires owner { owner.bench ≡ queue.now.table.shared.table_id }
    requires workers { All (λ worker. worker.bench ≡ queue.now.table.shared.table_id) workers.items }
    requires worker_count { length workers.items ≡ owner.workers }
    ensures queue { IsPassOf queue.now result.0 }
    ensures knows { view result.0 ≡
        owner_view all_parts owner.offered (picked_of workers.items) [] }
    ensures room { HasRoom result.1.items (vec_capacity result.1) }
{
    let OwnerPass { mut pass, left } = owner;
    for worker in workers {
        let WorkerPass { pass: other } = worker;
        queue.absorb::<OnePart>(&mut pass, other);
    }
    (pass, left)
}
