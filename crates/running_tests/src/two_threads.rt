//! A bench between two threads.
ghost use Rattle.std.specs.Prelude.{◌≡◌};

use crate::pair::jobs;
use cown_bench::{Bench, OwnerPass, Work, WorkerPass};
use cown_board::Job;
use sb_calls::Op;
use std::alloc::Global;
use std::process::Abort;
use std::sync::Wait;
use std::thread;
use std::thread::{Promise, Threads};

// A worker's thread gives back a pass of this bench.
#[derive(Clone, Copy)]
struct PassPromise<'a>(&'a Bench);

impl<'a> Promise<(WorkerPass, Vec<u64>)> for PassPromise<'a> {
    ghost kept_by = { λ promise result. result.0.bench ≡ promise.0.now };
}

#[test]
fn a_worker_picks_while_the_owner_offers(rt: HostRuntime) {
    let numbers = numbers_picked(&rt, rt.alloc(), jobs(&rt, rt.alloc(), 100));
    assert!(rt; numbers.len() == 100);
    assert!(rt;
        numbers
            .iter()
            .zip(1..)
            .all(|(number, wanted)| *number == wanted)
    );
}

// The numbers of the jobs that one worker picks. Nothing is left when the bench is closed.
fn numbers_picked<R: Threads + Wait + Abort + Sync>(
    rt: &R,
    alloc: Global,
    jobs: Vec<Job<Op>>,
) -> Vec<u64> {
    let (bench, owner, mut passes) = Bench::new(alloc, 1).expect(rt, "memory");
    let worker = passes.pop().expect(rt, "a worker");
    let (owner, worker, numbers) = offer_and_pick(rt, alloc, &bench, owner, worker, jobs);
    let mut workers = Vec::with_capacity(alloc, 1).expect(rt, "memory");
    workers.push_reserved(worker);
    assert!(rt; bench.close(rt, owner, workers).is_empty());
    numbers
}

// The owner offers while the worker picks in a thread of its own.
fn offer_and_pick<R: Threads + Wait + Abort + Sync>(
    rt: &R,
    alloc: Global,
    bench: &Bench,
    owner: OwnerPass,
    worker: WorkerPass,
    jobs: Vec<Job<Op>>,
) -> (OwnerPass, WorkerPass, Vec<u64>)
    requires owner { owner.bench ≡ bench.now }
    requires worker { worker.bench ≡ bench.now }
    ensures owner { (result.0.bench ≡ bench.now) × (result.0.workers ≡ owner.workers) }
    ensures worker { result.1.bench ≡ bench.now }
{
    thread::scope(
        thread::scope_env(),
        rt,
        move |scope| -> (OwnerPass, WorkerPass, Vec<u64>)
            requires { (owner.bench ≡ bench.now) × (worker.bench ≡ bench.now) }
            ensures { ((result.0.bench ≡ bench.entry.now) ×
                (result.0.workers ≡ owner.workers)) × (result.1.bench ≡ bench.entry.now) }
        {
            let picking = scope.spawn_with(
                PassPromise(bench),
                move || -> (WorkerPass, Vec<u64>)
                    requires { worker.bench ≡ bench.now }
                    ensures { result.0.bench ≡ bench.entry.now }
                { pick_all(rt, alloc, bench, worker) },
            );
            let picking = picking.expect(rt, "a thread");
            let owner = offer_all(rt, bench, owner, jobs);
            let (worker, numbers) = picking.join(rt);
            (owner, worker, numbers)
        },
    )
}

// Offers all jobs, and then a `Stop`.
fn offer_all<R: Wait + Abort>(
    rt: &R,
    bench: &Bench,
    mut owner: OwnerPass,
    jobs: Vec<Job<Op>>,
) -> OwnerPass
    requires { owner.bench ≡ bench.now }
    ensures { (result.bench ≡ bench.now) × (result.workers ≡ owner.workers) }
{
    for job in jobs {
        assert!(rt; bench.offer(rt, &mut owner, Work::Run(job)).is_ok());
    }
    assert!(rt; bench.offer(rt, &mut owner, Work::Stop).is_ok());
    owner
}

// Picks until a `Stop` comes, and answers the numbers of the jobs.
fn pick_all<R: Wait + Abort>(
    rt: &R,
    alloc: Global,
    bench: &Bench,
    mut worker: WorkerPass,
) -> (WorkerPass, Vec<u64>)
    requires { worker.bench ≡ bench.now }
    ensures { result.0.bench ≡ bench.now }
{
    let mut numbers = Vec::new(alloc);
    for _ in rt.forever() {
        match bench.pick(rt, &mut worker) {
            Some(Work::Run(job)) => numbers.push(job.number()).expect(rt, "memory"),
            Some(Work::Stop) => return (worker, numbers),
            None => thread::yield_now(),
        }
    }
    unreachable!()
}
