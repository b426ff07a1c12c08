//! The threads of a crew's workers.
ghost use Rattle.std.specs.Prelude.{◌≡◌, ◌+◌, ◌≤◌, [], ◌++◌, List, All, length, map, vec_capacity, IfOk, IfSome};
ghost use Rattle.std.specs.Option.{option_to_list};
ghost use Rattle.cown_bench.specs.BenchPasses.{WorkerOf};
ghost use Rattle.sb_calls.specs.declared.nodes.TheConstants.{WORKERS};
ghost use Rattle.cown_workers.specs.inner.PassPicks.{EndsAtStop};

use crate::gate::Gate;
use crate::threads::worker::Worker;
use cown_bench::{Bench, WORKERS, WorkerPass};
use std::alloc::{AllocError, Global};
use std::snapshot::Snapshot;
use std::sync::Wait;
use std::thread::{Promise, PromisedHandle, Scope, Threads};
use std::time::Clock;

// What a worker's thread returns: a pass of this bench, whose last pick is a `Stop`.
#[derive(Drop)]
pub(crate) struct PassOf(pub(crate) Snapshot<Bench>);

impl Promise<WorkerPass> for PassOf {
    ghost use Rattle.std.specs.Prelude.{◌≡◌};
    ghost use Rattle.cown_workers.specs.inner.PassPicks.{EndsAtStop};

    ghost kept_by = { λ promise pass. (pass.bench ≡ promise.0.value) × EndsAtStop pass.picked };
}

pub(crate) type WorkerThread = PromisedHandle<WorkerPass, PassOf>;

// Room for the threads of a whole crew, and for the passes that they return, and for the owner's.
// So starting threads takes no memory of its own.
#[derive(Drop)]
pub(crate) struct ThreadRoom {
    threads: Vec<WorkerThread>,
    passes: Vec<WorkerPass>,
    ghost no_threads: { threads.items ≡ [] },
    ghost no_passes: { passes.items ≡ [] },
    ghost for_threads: { WORKERS ≤ vec_capacity threads },
    ghost for_passes: { WORKERS + 1 ≤ vec_capacity passes },
}

impl ThreadRoom {
    pub(crate) fn new(alloc: Global) -> Result<ThreadRoom, AllocError> {
        let threads = Vec::with_capacity(alloc, WORKERS)?;
        let passes = Vec::with_capacity(alloc, WORKERS + 1)?;
        Ok(ThreadRoom { threads, passes })
    }

    // Starts a thread for each of these workers. If one can't be started, the workers without one
    // are gone.
    pub(crate) fn start_threads<'s, E, R, G>(
        self,
        scope: &'s Scope<'s, E>,
        bench: &'s Bench,
        workers: Vec<Worker<'s, R, G>>,
    ) -> ThreadPool
    where
        R: Wait + Clock + Sync,
        G: Gate + Sync,
        requires limit { length workers.items ≤ WORKERS }
        requires bench { All (λ worker. worker.bench.now ≡ bench.now) workers.items }
        ensures limit { length result.threads.items ≤ length workers.entry.items }
        ensures bench { All (λ thread. thread.promise.0.value ≡ bench.now) result.threads.items }
    {
        let ThreadRoom {
            mut threads,
            passes,
        } = self;
        start_each(scope, bench, workers, &mut threads);
        ThreadPool { threads, passes }
    }
}

// The threads of workers, and room for the passes that they return, and for the owner's.
#[derive(Drop)]
pub(crate) struct ThreadPool {
    pub(crate) threads: Vec<WorkerThread>,
    pub(crate) passes: Vec<WorkerPass>,
    pub(crate) ghost empty: { passes.items ≡ [] },
    pub(crate) ghost room: { length threads.items + 1 ≤ vec_capacity passes },
}

impl ThreadPool {
    // The number of threads.
    pub(crate) fn len(&self) -> usize
        ensures { result ≡ length self.now.threads.items }
    {
        self.threads.len()
    }

    // Joins all threads. The owner's pass comes first, if there is one, and then a pass from each
    // thread.
    pub(crate) fn join_all<R: Threads>(
        self,
        rt: &R,
        own_pass: Option<WorkerPass>,
    ) -> Vec<WorkerPass>
        ensures { (workers : List WorkerOf) × (result.items ≡ option_to_list own_pass ++ workers) ×
            (map (λ pass. pass.bench) workers ≡ map (λ thread. thread.promise.0.value) self.threads.items) ×
            All (λ pass. EndsAtStop pass.picked) workers }
    {
        let ThreadPool { threads, passes } = self;
        let passes = put_first(passes, own_pass);
        join_each(rt, threads, passes)
    }
}

// Starts a thread for each worker, until one can't be started.
fn start_each<'s, E, R, G>(
    scope: &'s Scope<'s, E>,
    bench: &'s Bench,
    workers: Vec<Worker<'s, R, G>>,
    threads: &mut Vec<WorkerThread>,
)
where
    R: Wait + Clock + Sync,
    G: Gate + Sync,
    requires bench { All (λ worker. worker.bench.now ≡ bench.now) workers.items }
    requires empty { threads.old.items ≡ [] }
    requires room { length workers.items ≤ vec_capacity threads.old }
    ensures limit { length threads.new.items ≤ length workers.entry.items }
    ensures bench { All (λ thread. thread.promise.0.value ≡ bench.now) threads.new.items }
{
    for worker in workers {
        let Some(thread) = start_one(scope, bench, worker) else {
            return;
        };
        threads.push_reserved(thread);
    }
}

// Starts a worker's thread, if it can be started.
fn start_one<'s, E, R, G>(
    scope: &'s Scope<'s, E>,
    bench: &'s Bench,
    worker: Worker<'s, R, G>,
) -> Option<WorkerThread>
where
    R: Wait + Clock + Sync,
    G: Gate + Sync,
    requires { worker.bench.now ≡ bench.now }
    ensures { IfSome result (λ thread. thread.promise.0.value ≡ bench.now) }
{
    let promise = PassOf(Snapshot::of(bench));
    scope.spawn_with(promise, move || worker.work()).ok()
}

// A list that has room, and begins with this pass if there is one.
fn put_first(mut passes: Vec<WorkerPass>, own_pass: Option<WorkerPass>) -> Vec<WorkerPass>
    requires empty { passes.items ≡ [] }
    requires room { 1 ≤ vec_capacity passes }
    ensures items { result.items ≡ option_to_list own_pass }
    ensures limit { length result.items ≤ 1 }
    ensures room { vec_capacity result ≡ vec_capacity passes }
{
    if let Some(own_pass) = own_pass {
        passes.push_reserved(own_pass);
    }
    passes
}

// Joins each thread, and appends the pass that it returns.
fn join_each<R: Threads>(
    rt: &R,
    threads: Vec<WorkerThread>,
    mut passes: Vec<WorkerPass>,
) -> Vec<WorkerPass>
    requires room { length passes.items + length threads.items ≤ vec_capacity passes }
    ensures { (workers : List WorkerOf) × (result.items ≡ passes.items ++ workers) ×
        (map (λ pass. pass.bench) workers ≡ map (λ thread. thread.promise.0.value) threads.items) ×
        All (λ pass. EndsAtStop pass.picked) workers }
{
    for thread in threads {
        passes.push_reserved(thread.join(rt));
    }
    passes
}
