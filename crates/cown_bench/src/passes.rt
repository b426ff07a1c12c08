//! The passes of a bench.
use crate::pass_history::PassHistory;
use crate::work::Work;
use crossbeam_queue::Pass;
use std::marker::Model;

/// The right to offer on one bench, and to close it. It remembers nothing at run time: only
/// contracts know what it offered.
#[derive(Drop)]
pub struct OwnerPass {
    pub(crate) pass: Pass<Work, PassHistory>,
    // Room for what nobody picked.
    pub(crate) left: Vec<Work>,
}

impl Model for OwnerPass {
    ghost use Rattle.cown_bench.specs.BenchPasses.{OwnerOf};

    ghost Value = { OwnerOf };

    ghost use Rattle.std.specs.Prelude.{vec_capacity};
    ghost use Rattle.cown_bench.specs.inner.PassViews.{HasRoom, IsOwner, owner_of};

    ghost view = { λ p. owner_of p.pass };

    ghost invariant = { λ p. IsOwner p.pass × HasRoom p.left.items (vec_capacity p.left) };
}

/// The right to pick from one bench. It remembers nothing at run time: only contracts know what it
/// picked.
#[derive(Drop)]
pub struct WorkerPass {
    pub(crate) pass: Pass<Work, PassHistory>,
}

impl Model for WorkerPass {
    ghost use Rattle.cown_bench.specs.BenchPasses.{WorkerOf};

    ghost Value = { WorkerOf };

    ghost use Rattle.cown_bench.specs.inner.PassViews.{IsWorker, worker_of};

    ghost view = { λ p. worker_of p.pass };

    ghost invariant = { λ p. IsWorker p.pass };
}
