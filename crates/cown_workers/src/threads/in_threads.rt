//! A crew in threads.
ghost use Rattle.std.specs.Prelude.{◌≡◌, ◌+◌, ◌<◌, ◌≤◌, [], ◌++◌, All, length, true, IfOk, IfErr, OnOk, is_some};
ghost use Rattle.std.specs.Option.{option_to_list};
ghost use Rattle.std.specs.Fn.{FnOnceReturnsAtMut};
ghost use Rattle.cown_workers.specs.BenchCrews.{BenchCrewOf, ShutsDown, IsFresh};

use crate::crew_fault::CrewFault;
use crate::gate::Gate;
use crate::threads::bench_crew::BenchCrew;
use crate::threads::owner_side::OwnerSide;
use crate::threads::thread_pool::ThreadRoom;
use crate::threads::unstarted_crew::UnstartedCrew;
use crate::threads::worker::Worker;
use crate::waiting::inbox::{Outbox, open_inbox};
use crate::waiting::wake_up::WakeUp;
use cown_bench::{Bench, WORKERS, WorkerPass};
use std::alloc::{AllocError, Global};
use std::sync::Wait;
use std::thread;
use std::thread::Threads;
use std::time::Clock;

/// Hands a crew of this many workers, each in its own thread, to `f`. Returns what `f` returned,
/// once all workers are gone. If the gate admits the owner, and there are fewer than sixteen
/// workers, `f`'s own thread executes jobs too while it waits for a result.
///
/// By then everything that `f` laid out was picked, each once, by one worker or by `f`'s own
/// thread; nothing is left.
///
/// Fails with `OutOfMemory` if memory is refused, all of which is taken before the first thread is
/// started, and with `CrewGone` if a thread can't be started. Then `f` isn't called: its answer
/// couldn't be let go, since `T` need not be `Drop`.
///
/// Each job runs between two calls of the gate. What `f` gave and didn't take in is executed, and
/// its result is dropped.
pub fn with_crew<R, G, T, F>(
    rt: &R,
    alloc: Global,
    workers: usize,
    gate: &G,
    f: F,
) -> Result<T, CrewFault>
where
    R: Threads + Wait + Clock + Sync,
    G: Gate + Sync,
    F: FnOnce(&mut BenchCrew<'_, R, G>) -> T,
    requires at_least_one { 1 ≤ workers }
    requires limit { workers ≤ WORKERS }
    requires callable { F.IsAlwaysCallable f }
    ensures answer { IfOk result (λ answer. (fresh after : BenchCrewOf) ×
        IsFresh workers (G.admits gate.now) fresh × FnOnceReturnsAtMut F.FnOnce f fresh answer after ×
        ShutsDown after) }
{
    let wake_up = WakeUp::new(alloc, workers)?;
    let (outbox, inbox) = open_inbox(alloc)?;
    let (bench, pass, mut passes) = Bench::new(alloc, pickers(gate, workers))?;
    let own_pass = take_extra_pass(&mut passes, workers);
    let hired = workers_at(rt, alloc, &bench, passes, gate, &wake_up, outbox)?;
    let owner_side = OwnerSide {
        rt,
        bench: &bench,
        wake_up: &wake_up,
        pass,
        inbox,
    };
    let room = ThreadRoom::new(alloc)?;
    let unstarted_crew = UnstartedCrew::new(room, owner_side, gate, own_pass, hired);
    with_started_crew(rt, unstarted_crew, f)
}

// Hands a crew to `f` while its workers are in their threads. It takes no memory, so its only fault
// is that a thread can't be started.
fn with_started_crew<R, G, T, F>(
    rt: &R,
    unstarted_crew: UnstartedCrew<'_, R, G>,
    f: F,
) -> Result<T, CrewFault>
where
    R: Threads + Wait + Clock + Sync,
    G: Gate + Sync,
    F: FnOnce(&mut BenchCrew<'_, R, G>) -> T,
    requires { F.IsAlwaysCallable f }
    ensures answer { IfOk result (λ answer. (after : BenchCrewOf) ×
        FnOnceReturnsAtMut F.FnOnce f unstarted_crew.entry answer after × ShutsDown after) }
    ensures fault { IfErr result (λ fault. fault ≡ CrewFault.CrewGone) }
{
    thread::scope(
        thread::scope_env(),
        rt,
        move |scope| -> Result<T, CrewFault>
            requires callable { F.IsAlwaysCallable f }
            ensures answer { IfOk result (λ answer. (after : BenchCrewOf) ×
                FnOnceReturnsAtMut F.FnOnce f unstarted_crew.entry answer after × ShutsDown after) }
            ensures fault { IfErr result (λ fault. fault ≡ CrewFault.CrewGone) }
        {
            let mut crew = unstarted_crew.start_crew(scope)?;
            let answer = f(&mut crew);
            crew.shut_down();
            Ok(answer)
        },
    )
}

// How many pick from the bench: the workers, and the owner if the gate admits it and the bench has
// a pass for it.
fn pickers<G: Gate>(gate: &G, workers: usize) -> usize
    requires { workers ≤ WORKERS }
    ensures enough { workers ≤ result }
    ensures limit { result ≤ WORKERS }
    ensures owner { workers < result → (result ≡ workers + 1) × (G.admits gate.now ≡ true) }
{
    if gate.admits_owner() {
        WORKERS.min(workers + 1)
    } else {
        workers
    }
}

// The last of these passes, if there is one more than this.
fn take_extra_pass(passes: &mut Vec<WorkerPass>, workers: usize) -> Option<WorkerPass>
    requires enough { workers ≤ length passes.old.items }
    requires limit { length passes.old.items ≤ workers + 1 }
    ensures parted { passes.old.items ≡ passes.new.items ++ option_to_list result }
    ensures as_many { length passes.new.items ≡ workers }
    ensures above { is_some result ≡ true → workers < length passes.old.items }
{
    if passes.len() > workers {
        passes.pop()
    } else {
        None
    }
}

// A worker for each of these passes.
fn workers_at<'a, R: Wait + Clock, G: Gate>(
    rt: &'a R,
    alloc: Global,
    bench: &'a Bench,
    passes: Vec<WorkerPass>,
    gate: &'a G,
    wake_up: &'a WakeUp,
    mut outbox: Outbox,
) -> Result<Vec<Worker<'a, R, G>>, AllocError>
    requires { All (λ pass. pass.bench ≡ bench.now) passes.items }
    ensures as_many { IfOk result (λ workers. length workers.items ≡ length passes.items) }
    ensures bench { IfOk result (λ workers. All (λ worker. worker.bench.now ≡ bench.now) workers.items) }
{
    let mut workers = Vec::with_capacity(alloc, passes.len())?;
    for pass in passes {
        workers.push_reserved(worker_at(rt, bench, pass, gate, wake_up, &mut outbox)?);
    }
    Ok(workers)
}

// A worker with this pass, and with an outbox of its own.
fn worker_at<'a, R: Wait + Clock, G: Gate>(
    rt: &'a R,
    bench: &'a Bench,
    pass: WorkerPass,
    gate: &'a G,
    wake_up: &'a WakeUp,
    outbox: &mut Outbox,
) -> Result<Worker<'a, R, G>, AllocError>
    requires { pass.bench ≡ bench.now }
    ensures { IfOk result (λ worker. worker.bench.now ≡ bench.now) }
{
    Ok(Worker {
        rt,
        bench,
        pass,
        gate,
        wake_up,
        outbox: outbox.another()?,
    })
}
