//! A crew that works at a bench.
ghost use Rattle.std.specs.Prelude.{◌≡◌, ◌⊎◌, [], All, length, true, is_some, IfNone, IfSome};
ghost use Rattle.cown_board.specs.Job.{JobOf};
ghost use Rattle.sb_calls.specs.declared.op.Op.{Op};
ghost use Rattle.cown_bench.specs.BenchPasses.{PicksWork};
ghost use Rattle.cown_workers.specs.inner.PassPicks.{HasAllPasses, picked_with, EndsAtStop};
ghost use Rattle.cown_workers.specs.BenchCrews.{ShutsDown, ActsAtBench, PicksItself};
ghost use Rattle.cown_workers.specs.Draining.{IsResultOf};

use crate::crew::Crew;
use crate::gate::{Gate, run_at_gate};
use crate::threads::owner_side::OwnerSide;
use crate::threads::thread_pool::ThreadPool;
use crate::waiting::streak::Streak;
use cown_bench::{Bench, Work, WorkerPass};
use cown_board::{Done, Job};
use sb_calls::Op;
use std::marker::Model;
use std::sync::Wait;
use std::thread::Threads;
use std::time::Clock;

/// A crew in threads, as the owner of a board sees it. A job that it is given lies on a bench until
/// a worker picks it, and comes back if the bench is full. Results arrive through a channel. If
/// none has arrived, `next` waits, so ask it only while the crew has a job. If the gate admits the
/// owner and the bench has fewer workers than it may have, the owner is one more worker meanwhile:
/// it executes jobs that nobody has picked yet. Contracts see the number of the crew's workers,
/// whether its owner helps, what it laid out, and what the owner picked itself.
// `G` has no bound here: if its trait has ghost members, the check can't state `with_crew`'s bound
// on `f`.
#[derive(Drop)]
pub struct BenchCrew<'a, R: Wait + Clock, G> {
    owner_side: OwnerSide<'a, R>,
    gate: &'a G,
    // The owner's own pass, if it helps.
    own_pass: Option<WorkerPass>,
    thread_pool: ThreadPool,
    // The number of jobs with the crew, and since when it has had some.
    jobs: usize,
    streak: Streak,
}

impl<'a, R: Wait + Clock, G> Model for BenchCrew<'a, R, G> {
    ghost use Rattle.std.specs.Prelude.{◌≡◌, All, length, is_some};
    ghost use Rattle.cown_workers.specs.BenchCrews.{BenchCrewOf};
    ghost use Rattle.cown_workers.specs.inner.PassPicks.{HasAllPasses, picked_with};

    ghost Value = { BenchCrewOf };

    ghost view = { λ crew. record {
      workers = length crew.thread_pool.threads.items;
      owner_helps = is_some crew.own_pass;
      offered = crew.owner_side.pass.offered;
      picked = picked_with crew.own_pass;
    } };

    // All passes of the bench are with the crew, and no `Stop` was laid out.
    ghost invariant = { λ crew. HasAllPasses crew.owner_side.bench.now crew.owner_side.pass
        crew.own_pass (length crew.thread_pool.threads.items)
        × All (λ thread. thread.promise.0.value ≡ crew.owner_side.bench.now) crew.thread_pool.threads.items };
}

impl<'a, R: Wait + Clock, G: Gate> BenchCrew<'a, R, G> {
    // A crew with these workers, and the other passes of their bench.
    pub(crate) fn new(
        owner_side: OwnerSide<'a, R>,
        gate: &'a G,
        own_pass: Option<WorkerPass>,
        thread_pool: ThreadPool,
    ) -> BenchCrew<'a, R, G>
        requires passes { HasAllPasses owner_side.bench.now owner_side.pass own_pass
            (length thread_pool.threads.items) }
        requires staff { All (λ thread. thread.promise.0.value ≡ owner_side.bench.now) thread_pool.threads.items }
        ensures { result ≡ record {
          workers = length thread_pool.threads.items;
          owner_helps = is_some own_pass;
          offered = owner_side.entry.pass.offered;
          picked = picked_with own_pass;
        } }
    {
        BenchCrew {
            owner_side,
            gate,
            own_pass,
            thread_pool,
            jobs: 0,
            streak: Streak::new(),
        }
    }

    // The result that a worker which is awake has handed over, if any. While all sleep the bench
    // comes first.
    fn handed_over(&mut self) -> Option<Done<Op>>
        ensures { self.new ≡ self.old }
    {
        if self.owner_side.wake_up.all_asleep() {
            return None;
        }
        let rt = self.owner_side.rt;
        self.owner_side.inbox.try_recv(rt).ok()
    }

    // Wakes one more worker, if the crew has had jobs for a while. One job is for the owner, if it
    // helps. A worker that sleeps looks at the bench by itself too, but later.
    fn wake_another(&self) {
        let own_jobs = if self.own_pass.is_some() { 1 } else { 0 };
        let jobs = self.jobs.saturating_sub(own_jobs);
        if jobs > 0 && self.streak.is_long(self.owner_side.rt) {
            let _ = self.owner_side.wake_up.signal(self.owner_side.rt, jobs);
        }
    }

    // Executes the first job on the bench, if the owner helps and there is one.
    fn help(&mut self) -> Option<Done<Op>>
        ensures job_picked { IfSome result (λ done. (job : JobOf Op) ×
            PicksItself self.old (Work.Run job) self.new × IsResultOf done job) }
        ensures no_job_picked { IfNone result ((self.new ≡ self.old) ⊎ PicksItself self.old Work.Stop self.new) }
    {
        let Some(own_pass) = &mut self.own_pass else {
            return None;
        };
        pick_and_run(
            self.owner_side.rt,
            self.owner_side.bench,
            own_pass,
            self.gate,
        )
    }
}

impl<'a, R: Threads + Wait + Clock, G: Gate> BenchCrew<'a, R, G> {
    // Sends the workers home, and closes the bench once all are gone. Nothing is left there.
    pub(crate) fn shut_down(self)
        ensures { ShutsDown self.entry }
    {
        let BenchCrew {
            owner_side,
            own_pass,
            thread_pool,
            ..
        } = self;
        let rt = owner_side.rt;
        let bench = owner_side.bench;
        let owner = owner_side.stop_workers(thread_pool.len());
        let workers = thread_pool.join_all(rt, own_pass);
        let _ = bench.close(rt, owner, workers);
    }
}

impl<'a, R: Wait + Clock, G: Gate> Crew for BenchCrew<'a, R, G> {
    ghost keeps = { true };

    ghost acts = { λ old step new. ActsAtBench old step new };

    fn keeps(&self) -> bool {
        true
    }

    fn give(&mut self, job: Job<Op>) -> Result<(), Job<Op>> {
        match self.owner_side.bench.offer(
            self.owner_side.rt,
            &mut self.owner_side.pass,
            Work::Run(job),
        ) {
            Ok(()) => {
                if self.jobs == 0 {
                    self.streak.begin_again(self.owner_side.rt);
                }
                self.jobs = self.jobs.saturating_add(1);
                // An owner that helps begins alone, another with one worker.
                if self.own_pass.is_none() {
                    let _ = self.owner_side.wake_up.signal(self.owner_side.rt, 1);
                }
                Ok(())
            }
            Err(Work::Run(back)) => Err(back),
            Err(Work::Stop) => unreachable!(),
        }
    }

    fn next(&mut self) -> Option<Done<Op>> {
        let done = match self.handed_over() {
            Some(done) => done,
            None => {
                self.wake_another();
                match self.help() {
                    Some(done) => done,
                    None => self.owner_side.next_result(self.jobs)?,
                }
            }
        };
        self.jobs = self.jobs.saturating_sub(1);
        self.streak.count();
        Some(done)
    }
}

// Executes the first job on a bench, if there is one.
fn pick_and_run<R: Wait, G: Gate>(
    rt: &R,
    bench: &Bench,
    own_pass: &mut WorkerPass,
    gate: &G,
) -> Option<Done<Op>>
    requires { own_pass.old.bench ≡ bench.now }
    ensures job_picked { IfSome result (λ done. (job : JobOf Op) ×
        PicksWork own_pass.old (Work.Run job) own_pass.new × IsResultOf done job) }
    ensures no_job_picked { IfNone result ((own_pass.new ≡ own_pass.old) ⊎
        PicksWork own_pass.old Work.Stop own_pass.new) }
{
    match bench.pick(rt, own_pass)? {
        Work::Run(job) => Some(run_at_gate(gate, job)),
        // A crew isn't asked for anything once it shuts down.
        Work::Stop => None,
    }
}

// From outside a signal can't be distinguished from a sleep that ends by itself, so this tests who
// signals. The worker has a wake-up of its own, so every signal of the owner's is seen.
#[cfg(test)]
mod tests {
    use super::*;
    use crate::gate::OpenGate;
    use crate::threads::thread_pool::ThreadRoom;
    use crate::threads::worker::Worker;
    use crate::waiting::inbox::open_inbox;
    use crate::waiting::inbox::tests::job;
    use crate::waiting::wake_up::WakeUp;
    use cown_bench::OwnerPass;
    use std::alloc::Global;
    use std::process::Abort;
    use std::sync::atomic::{AtomicBool, Ordering};
    use std::thread;
    use std::thread::Scope;

    const TURNS: u32 = 1_000_000;

    // Keeps a job waiting until the latch is opened, or for a limited number of turns.
    #[derive(Default, Drop)]
    struct Latch {
        came: AtomicBool,
        open: AtomicBool,
    }

    impl Gate for Latch {
        fn before(&self, _number: u64) {
            self.came.store(true, Ordering::SeqCst);
            let _ = comes_true(&self.open);
        }

        fn after(&self, _number: u64) {}
    }

    // Waits for a flag, for a limited number of turns, and returns whether it was set.
    fn comes_true(flag: &AtomicBool) -> bool {
        for _ in 0..TURNS {
            if flag.load(Ordering::SeqCst) {
                return true;
            }
            thread::yield_now();
        }
        false
    }

    // A thread for this one worker.
    fn pool_of<'s, E, R: Wait + Clock + Sync + Abort, G: Gate + Sync>(
        scope: &'s Scope<'s, E>,
        rt: &R,
        alloc: Global,
        bench: &'s Bench,
        worker: Worker<'s, R, G>,
    ) -> ThreadPool
        requires { worker.bench.now ≡ bench.now }
        ensures one { length result.threads.items ≡ 1 }
        ensures bench { All (λ thread. thread.promise.0.value ≡ bench.now) result.threads.items }
    {
        let mut workers = Vec::with_capacity(alloc, 1).expect(rt, "memory");
        workers.push_reserved(worker);
        let room = ThreadRoom::new(alloc).expect(rt, "memory");
        let thread_pool = room.start_threads(scope, bench, workers);
        assert!(rt; thread_pool.len() == 1);
        thread_pool
    }

    fn gives<R: Wait + Clock + Abort>(
        rt: &R,
        alloc: Global,
        crew: &mut BenchCrew<'_, R, OpenGate>,
    ) {
        assert!(rt; crew.give(job(rt, alloc)).is_ok());
    }

    // What an owner and its worker share.
    #[derive(Clone, Copy)]
    struct Shared<'s> {
        bench: &'s Bench,
        wake_up: &'s WakeUp,
        other_wake_up: &'s WakeUp,
        latch: &'s Latch,
    }

    // A crew of one worker, and of its owner if that has a pass of its own.
    fn crew_of<'s, E, R: Wait + Clock + Sync + Abort>(
        scope: &'s Scope<'s, E>,
        rt: &'s R,
        alloc: Global,
        shared: Shared<'s>,
        pass: OwnerPass,
        own_pass: Option<WorkerPass>,
        worker_pass: WorkerPass,
    ) -> BenchCrew<'s, R, OpenGate>
        requires passes { HasAllPasses shared.bench.now pass own_pass 1 }
        requires worker { worker_pass.bench ≡ shared.bench.now }
    {
        let Shared {
            bench,
            wake_up,
            other_wake_up,
            latch,
        } = shared;
        let (outbox, inbox) = open_inbox(alloc).expect(rt, "memory");
        let worker = Worker {
            rt,
            bench,
            pass: worker_pass,
            gate: latch,
            wake_up: other_wake_up,
            outbox,
        };
        let thread_pool = pool_of(scope, rt, alloc, bench, worker);
        let owner_side = OwnerSide {
            rt,
            bench,
            wake_up,
            pass,
            inbox,
        };
        BenchCrew::new(owner_side, &OpenGate, own_pass, thread_pool)
    }

    // Only the worker picks from the bench.
    fn signals_at_once<'s, E, R: Threads + Wait + Clock + Sync + Abort>(
        scope: &'s Scope<'s, E>,
        rt: &'s R,
        alloc: Global,
        shared: Shared<'s>,
        pass: OwnerPass,
        mut passes: Vec<WorkerPass>,
    )
        requires owner { pass ≡ record {
          bench = shared.bench.now;
          workers = length passes.items;
          offered = [];
        } }
        requires workers { All (λ worker. worker.bench ≡ shared.bench.now) passes.items }
    {
        assert!(rt; passes.len() == 1);
        let wake_up = shared.wake_up;
        let worker_pass = passes.pop().expect(rt, "a pass");
        let mut crew = crew_of(scope, rt, alloc, shared, pass, None, worker_pass);
        gives(rt, alloc, &mut crew);
        gives(rt, alloc, &mut crew);
        assert!(rt; wake_up.await_signal(rt));
        assert!(rt; !wake_up.await_signal(rt));
        // The worker stays at the latch, so no result comes soon. The owner signals once more for
        // each job, and sleeps.
        assert!(rt; crew.next().is_some());
        assert!(rt; wake_up.await_signal(rt));
        assert!(rt; wake_up.await_signal(rt));
        assert!(rt; !wake_up.await_signal(rt));
        // It signals a `Stop` too.
        crew.shut_down();
        assert!(rt; wake_up.await_signal(rt));
    }

    // The worker, whose job is stopped at the gate, and the owner both pick from the bench.
    fn signals_after_a_streak<'s, E, R: Threads + Wait + Clock + Sync + Abort>(
        scope: &'s Scope<'s, E>,
        rt: &'s R,
        alloc: Global,
        shared: Shared<'s>,
        pass: OwnerPass,
        mut passes: Vec<WorkerPass>,
    )
        requires owner { pass ≡ record {
          bench = shared.bench.now;
          workers = length passes.items;
          offered = [];
        } }
        requires workers { All (λ worker. worker.bench ≡ shared.bench.now) passes.items }
    {
        assert!(rt; passes.len() == 2);
        let Shared { wake_up, latch, .. } = shared;
        let own_pass = passes.pop().expect(rt, "a pass");
        let worker_pass = passes.pop().expect(rt, "a pass");
        let mut crew = crew_of(scope, rt, alloc, shared, pass, Some(own_pass), worker_pass);
        gives(rt, alloc, &mut crew);
        assert!(rt; comes_true(&latch.came));
        gives(rt, alloc, &mut crew);
        gives(rt, alloc, &mut crew);
        // Listening takes longer than the owner stays alone.
        assert!(rt; !wake_up.await_signal(rt));
        assert!(rt; crew.streak.done == 0);
        assert!(rt; crew.next().is_some());
        assert!(rt; crew.streak.done == 1);
        assert!(rt; wake_up.await_signal(rt));
        latch.open.store(true, Ordering::SeqCst);
        crew.shut_down();
    }

    // An owner that helps or only waits, a worker, and two that the owner counts as asleep.
    fn with_bench(rt: &(impl Threads + Wait + Clock + Sync + Abort), alloc: Global, helps: bool) {
        let pickers = if helps { 2 } else { 1 };
        let (bench, pass, passes) = Bench::new(alloc, pickers).expect(rt, "memory");
        let wake_up = WakeUp::new(alloc, 2).expect(rt, "memory");
        let other_wake_up = WakeUp::new(alloc, 1).expect(rt, "memory");
        let latch = Latch::default();
        wake_up.begin_sleep();
        wake_up.begin_sleep();
        let shared = Shared {
            bench: &bench,
            wake_up: &wake_up,
            other_wake_up: &other_wake_up,
            latch: &latch,
        };
        thread::scope(
            thread::scope_env(),
            rt,
            move |scope| -> ()
                requires owner { pass ≡ record {
                  bench = shared.bench.now;
                  workers = length passes.items;
                  offered = [];
                } }
                requires workers { All (λ worker. worker.bench ≡ shared.bench.now) passes.items }
            {
                if helps {
                    signals_after_a_streak(scope, rt, alloc, shared, pass, passes);
                } else {
                    signals_at_once(scope, rt, alloc, shared, pass, passes);
                }
            },
        );
    }

    #[test]
    fn an_owner_that_only_waits_signals_at_once_and_before_it_sleeps(rt: HostRuntime) {
        with_bench(&rt, rt.alloc(), false);
    }

    #[test]
    fn an_owner_that_helps_signals_after_a_streak(rt: HostRuntime) {
        with_bench(&rt, rt.alloc(), true);
    }
}
