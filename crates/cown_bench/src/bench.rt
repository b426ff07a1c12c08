//! The bench.
ghost use Rattle.std.specs.Prelude.{◌≡◌, ◌≤◌, [], ◌∷◌, ◌++◌, All, length, IfErr, IfNone, IfOk, IfSome, OnErr, OnOk};
ghost use Rattle.cown_bench.specs.BenchPasses.{PicksWork, picked_of};
ghost use Rattle.cown_bench.specs.OfferedWorks.{IsSplitInto, WeighAlike};

use crate::draining::drain;
use crate::passes::{OwnerPass, WorkerPass};
use crate::rule::{Offers, Picks, Queue};
use crate::work::Work;
use crate::worker_passes::{absorb_passes, split_passes};
use cown_board::OPEN_BEHAVIOURS;
use sb_calls::WORKERS;
use std::alloc::{AllocError, Global};
use std::marker::Model;
use std::sync::Wait;

/// How many Works a bench holds: all that a board may have unfinished, and a `Stop` for each
/// worker.
pub const BENCH_CAPACITY: usize = OPEN_BEHAVIOURS + WORKERS;

/// A bounded queue on which an owner lays out Works for its workers. They pick each Work once, in
/// the order in which it was offered. Threads may share it.
#[derive(Drop)]
pub struct Bench {
    queue: Queue,
}

impl Model for Bench {
    ghost use Rattle.crossbeam_queue.specs.Passes.{ruled_capacity};
    ghost use Rattle.cown_bench.specs.BenchPasses.{BenchId};
    ghost use Rattle.cown_bench.specs.inner.PassViews.{HasBenchCapacity};

    ghost Value = { BenchId };

    ghost view = { λ b. b.queue.table.shared.table_id };

    ghost invariant = { λ b. HasBenchCapacity (ruled_capacity b.queue) };
}

impl Bench {
    /// Makes a bench for this many workers, with its owner's pass and theirs. It allocates all
    /// memory that the bench ever needs.
    pub fn new(
        alloc: Global,
        workers: usize,
    ) -> Result<(Bench, OwnerPass, Vec<WorkerPass>), AllocError>
        requires positive { 1 ≤ workers }
        requires limit { workers ≤ WORKERS }
        ensures owner { IfOk result (λ made. made.1 ≡
            record { bench = made.0; workers = workers; offered = [] }) }
        ensures passes { IfOk result (λ made. All (λ pass. pass ≡
            record { bench = made.0; picked = [] }) made.2.items) }
        ensures as_many { IfOk result (λ made. length made.2.items ≡ workers) }
    {
        let left = Vec::with_capacity(alloc, BENCH_CAPACITY)?;
        let mut passes = Vec::with_capacity(alloc, workers)?;
        let (queue, mut pass) = Queue::ruled(alloc, BENCH_CAPACITY)?;
        split_passes(&queue, &mut pass, workers, &mut passes);
        Ok((Bench { queue }, OwnerPass { pass, left }, passes))
    }

    /// Lays out a Work, or hands it back if the bench is full.
    pub fn offer<R: Wait>(&self, rt: &R, pass: &mut OwnerPass, work: Work) -> Result<(), Work>
        requires { pass.old.bench ≡ self.now }
        ensures ok { OnOk result (pass.new ≡
            record pass.old { offered = pass.old.offered ++ work ∷ [] }) }
        ensures back { IfErr result (λ back. back ≡ work) }
        ensures full { OnErr result
            ((pass.new ≡ pass.old) × (BENCH_CAPACITY ≤ length pass.old.offered)) }
    {
        self.queue.push_as::<Offers, R>(rt, &mut pass.pass, work)
    }

    /// Picks the Work that has lain there longest, or answers `None` if nothing lies there.
    pub fn pick<R: Wait>(&self, rt: &R, pass: &mut WorkerPass) -> Option<Work>
        requires { pass.old.bench ≡ self.now }
        ensures picked { IfSome result (λ work. PicksWork pass.old work pass.new) }
        ensures unchanged { IfNone result (pass.new ≡ pass.old) }
    {
        self.queue.pop_as::<Picks, R>(rt, &mut pass.pass)
    }

    /// Closes the bench, and answers what nobody picked, in the order in which it was offered. It
    /// takes all passes that were made with the bench, so nobody can offer or pick there any more.
    /// It allocates nothing.
    pub fn close<R: Wait>(&self, rt: &R, owner: OwnerPass, workers: Vec<WorkerPass>) -> Vec<Work>
        requires owner { owner.bench ≡ self.now }
        requires workers { All (λ worker. worker.bench ≡ self.now) workers.items }
        requires worker_count { length workers.items ≡ owner.workers }
        ensures split { IsSplitInto owner.offered (picked_of workers.items) result.items }
        // So any sum over all that was offered is the same over what was picked and what is left.
        ensures weights { WeighAlike owner.offered (picked_of workers.items) result.items }
    {
        let (pass, left) = absorb_passes(&self.queue, owner, workers);
        drain(rt, &self.queue, pass, left)
    }
}
