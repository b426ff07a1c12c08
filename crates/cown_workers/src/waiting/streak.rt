//! When an owner wakes its workers.
use std::time::{Clock, Duration, Instant};

// How many microseconds an owner works alone. Waking a worker takes about ten, and what two threads
// execute in turn moves between their processors: for a thousand short jobs that doesn't pay. Of
// long jobs the first are late, and a few of them run one after the other.
const ALONE: u64 = 500;

// How many jobs are done from one look at the clock to the next, after as many with a look each. A
// look takes a twentieth of what a short job does.
const JOBS_A_LOOK: u64 = 16;

// Since when an owner has had jobs with its crew, without a break, and how many were done since.
#[derive(Drop)]
pub(crate) struct Streak {
    began: Option<Instant>,
    pub(crate) done: u64,
}

impl Streak {
    pub(crate) fn new() -> Streak {
        Streak {
            began: None,
            done: 0,
        }
    }

    // The owner had no job with its crew, and has one now.
    pub(crate) fn begin_again<R: Clock>(&mut self, rt: &R) {
        self.began = Instant::now(rt).ok();
        self.done = 0;
    }

    // One more job is done.
    pub(crate) fn count(&mut self) {
        self.done = self.done.saturating_add(1);
    }

    // Whether the owner has worked alone for long enough, on jobs of a microsecond or more each:
    // handing over a shorter one takes longer than executing it. If the clock fails, it has.
    pub(crate) fn is_long<R: Clock>(&self, rt: &R) -> bool {
        if self.done > JOBS_A_LOOK && self.done % JOBS_A_LOOK != 0 {
            return false;
        }
        let Some(began) = &self.began else {
            return true;
        };
        match began.elapsed(rt) {
            Ok(lasted) => lasted >= Duration::from_micros(ALONE.max(self.done)),
            Err(_) => true,
        }
    }
}

// From outside a streak can't be distinguished from a worker that wakes by itself.
#[cfg(test)]
mod tests {
    use super::*;
    use std::io;
    use std::sync::atomic::{AtomicU64, Ordering};

    // A clock that a test sets.
    #[derive(Default, Drop)]
    struct ManualClock {
        micros: AtomicU64,
    }

    impl Clock for ManualClock {
        fn monotonic(&self) -> io::Result<Duration> {
            Ok(Duration::from_micros(self.micros.load(Ordering::SeqCst)))
        }

        fn since_1970(&self) -> io::Result<Duration> {
            self.monotonic()
        }
    }

    // How many jobs are done, after how many microseconds, and whether the streak is long.
    const STREAKS: [(u32, u64, bool); 12] = [
        (0, 499, false),
        (0, 500, true),
        (15, 499, false),
        (15, 500, true),
        (16, 500, true),
        (17, 1_000_000, false),
        (31, 1_000_000, false),
        (32, 500, true),
        (496, 500, true),
        (512, 511, false),
        (512, 512, true),
        (1_024, 1_023, false),
    ];

    #[test]
    fn a_streak_of_short_jobs_is_not_long(rt: HostRuntime) {
        let clock = ManualClock::default();
        let mut streak = Streak::new();
        for (jobs, micros, long) in STREAKS {
            clock.micros.store(7, Ordering::SeqCst);
            streak.begin_again(&clock);
            for _ in 0..jobs {
                streak.count();
            }
            clock
                .micros
                .store(micros.saturating_add(7), Ordering::SeqCst);
            assert!(rt;
                streak.is_long(&clock) == long,
                "{jobs} jobs, {micros} microseconds"
            );
        }
    }

    #[test]
    fn a_streak_is_long_without_a_clock(rt: HostRuntime) {
        assert!(rt; Streak::new().is_long(&ManualClock::default()));
    }
}
