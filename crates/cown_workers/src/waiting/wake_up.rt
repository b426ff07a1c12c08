//! Waking workers that sleep.
ghost use Rattle.std.specs.Prelude.{◌≡◌, IfNone, IfSome};
ghost use Rattle.cown_bench.specs.BenchPasses.{PicksWork};

use crate::waiting::back_off::BackOff;
use cown_bench::{Bench, Work, WorkerPass};
use crossbeam_channel::{Receiver, Sender, bounded};
use std::alloc::{AllocError, Global};
use std::sync::Wait;
use std::sync::atomic::{AtomicUsize, Ordering};
use std::time::{Clock, Duration};

// The most milliseconds that a worker sleeps. An owner that helps lays its jobs out without a
// signal, so this is how long they may lie there while it does something else. Sixteen workers that
// wake this seldom take almost no processor time.
const LONGEST_MILLIS: u64 = 50;

// What an owner signals when it offers something and too few workers are awake.
//
// The owner offers, then reads how many sleep. A worker is counted as asleep, then looks at the
// bench once more, and only then sleeps. All threads see these four steps in one order (`SeqCst`).
// So either the owner's look comes after the worker was counted, and it signals; or it comes
// before, and the worker finds what was offered.
//
// A worker that takes a signal looks at the bench after that. So a signal that nobody has taken yet
// does for what is offered meanwhile too.
#[derive(Drop)]
pub(crate) struct WakeUp {
    workers: usize,
    sleeping: AtomicUsize,
    sender: Sender<()>,
    receiver: Receiver<()>,
}

impl WakeUp {
    // For this many workers.
    pub(crate) fn new(alloc: Global, workers: usize) -> Result<WakeUp, AllocError> {
        let (sender, receiver) = bounded(alloc, workers)?;
        Ok(WakeUp {
            workers,
            sleeping: AtomicUsize::new(0),
            sender,
            receiver,
        })
    }

    // Whether no worker is awake.
    pub(crate) fn all_asleep(&self) -> bool {
        self.sleeping.load(Ordering::SeqCst) == self.workers
    }

    // Wakes a worker, if one sleeps and fewer workers are awake than there are jobs with the crew,
    // and returns whether it did. The jobs are on the bench already.
    pub(crate) fn signal<R: Wait>(&self, rt: &R, jobs: usize) -> bool {
        // If the channel is full, each worker still has a signal to take.
        self.are_too_few(jobs) && self.sender.try_send(rt, ()).is_ok()
    }

    // Whether a worker sleeps, without a signal to take, that these jobs want awake.
    fn are_too_few(&self, jobs: usize) -> bool {
        // This look needs no fence: each step on the bench is `SeqCst`, as this one is, so it can't
        // come before the step that laid the job out.
        let asleep = self.sleeping.load(Ordering::SeqCst);
        let sleeping = asleep.saturating_sub(self.sender.len());
        sleeping > 0 && self.workers.saturating_sub(sleeping) < jobs
    }

    // Picks the first Work on the bench. If there is none, it waits until the owner signals, or for
    // a while, and picks nothing. A signal lets the worker begin to wait anew.
    pub(crate) fn pick_or_sleep<R: Wait + Clock>(
        &self,
        rt: &R,
        bench: &Bench,
        pass: &mut WorkerPass,
        back_off: &mut BackOff,
    ) -> Option<Work>
        requires { pass.old.bench ≡ bench.now }
        ensures work_picked { IfSome result (λ work. PicksWork pass.old work pass.new) }
        ensures nothing_picked { IfNone result (pass.new ≡ pass.old) }
    {
        self.begin_sleep();
        // Nobody signalled what was offered before this worker was counted.
        let work = bench.pick(rt, pass);
        if work.is_none() && self.await_signal(rt) {
            *back_off = BackOff::new();
        }
        self.end_sleep();
        work
    }

    // Counts a worker as asleep.
    pub(crate) fn begin_sleep(&self) {
        self.sleeping.fetch_add(1, Ordering::SeqCst);
    }

    fn end_sleep(&self) {
        self.sleeping.fetch_sub(1, Ordering::SeqCst);
    }

    // Waits until the owner signals, or for a while, and returns whether it did.
    pub(crate) fn await_signal<R: Wait + Clock>(&self, rt: &R) -> bool {
        self.receiver
            .recv_timeout(rt, Duration::from_millis(LONGEST_MILLIS))
            .is_ok()
    }
}

// From outside one look at the bench can't be distinguished from another, nor a signal from a sleep
// that ends by itself, so both are tested here. running_tests shows by public calls that workers
// execute what comes while they sleep.
#[cfg(test)]
mod tests {
    use super::*;
    use std::process::Abort;

    #[test]
    fn what_lies_on_the_bench_is_picked_before_a_sleep(rt: HostRuntime) {
        let (bench, mut owner, mut passes) = Bench::new(rt.alloc(), 1).expect(&rt, "memory");
        let wake_up = WakeUp::new(rt.alloc(), 1).expect(&rt, "memory");
        let mut pass = passes.pop().expect(&rt, "a pass");
        // Nobody sleeps yet, so the signal wakes nobody.
        assert!(rt; bench.offer(&rt, &mut owner, Work::Stop).is_ok());
        assert!(rt; !wake_up.signal(&rt, 1));
        let mut back_off = BackOff::new();
        let picked = wake_up.pick_or_sleep(&rt, &bench, &mut pass, &mut back_off);
        assert!(rt; matches!(&picked, Some(Work::Stop)));
        // A sleep with nothing to pick ends by itself.
        let nothing = wake_up.pick_or_sleep(&rt, &bench, &mut pass, &mut back_off);
        assert!(rt; nothing.is_none());
    }

    // More often than a worker waits before it sleeps.
    const LONG: u32 = 100;

    #[test]
    fn only_a_signal_lets_a_worker_wait_anew(rt: HostRuntime) {
        let (bench, _owner, mut passes) = Bench::new(rt.alloc(), 1).expect(&rt, "memory");
        let wake_up = two_workers(&rt, rt.alloc(), 1);
        let mut pass = passes.pop().expect(&rt, "a pass");
        let mut back_off = BackOff::new();
        for _ in 0..LONG {
            back_off.wait_longer(&rt);
        }
        back_off.ease();
        assert!(rt; back_off.is_over());
        let _ = wake_up.pick_or_sleep(&rt, &bench, &mut pass, &mut back_off);
        assert!(rt; back_off.is_over());
        assert!(rt; wake_up.signal(&rt, 2));
        let _ = wake_up.pick_or_sleep(&rt, &bench, &mut pass, &mut back_off);
        assert!(rt; !back_off.is_over());
    }

    // Two workers, this many of which sleep.
    fn two_workers<R: Abort>(rt: &R, alloc: Global, sleeping: usize) -> WakeUp {
        let wake_up = WakeUp::new(alloc, 2).expect(rt, "memory");
        for _ in 0..sleeping {
            wake_up.begin_sleep();
        }
        wake_up
    }

    // How many signals, of at most three, are to be taken.
    fn signals<R: Wait + Clock>(rt: &R, wake_up: &WakeUp) -> usize {
        let mut taken: usize = 0;
        for _ in 0..3 {
            if wake_up.await_signal(rt) {
                taken = taken.saturating_add(1);
            }
        }
        taken
    }

    // How many of two workers sleep, how many jobs there are, and how many of those that sleep are
    // to wake.
    const SIGNALS: [(usize, usize, usize); 6] = [
        (0, 9, 0),
        (1, 1, 0),
        (1, 2, 1),
        (2, 0, 0),
        (2, 1, 1),
        (2, 9, 2),
    ];

    #[test]
    fn a_signal_wakes_a_worker_where_too_few_are_up(rt: HostRuntime) {
        for (sleeping, jobs, wanted) in SIGNALS {
            let wake_up = two_workers(&rt, rt.alloc(), sleeping);
            assert!(rt; wake_up.signal(&rt, jobs) == (wanted > 0));
            let taken = signals(&rt, &wake_up);
            assert!(rt; taken == wanted.min(1), "{sleeping} sleep, {jobs} jobs");
            for _ in 0..3 {
                let _ = wake_up.signal(&rt, jobs);
            }
            let taken = signals(&rt, &wake_up);
            assert!(rt; taken == wanted, "{sleeping} sleep, {jobs} jobs, again");
        }
    }
}
