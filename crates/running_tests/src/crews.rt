//! Crews that keep jobs.
ghost use Rattle.std.specs.Prelude.{◌≡◌, true};

use cown_board::{Done, Job};
use cown_workers::Crew;
use sb_calls::Op;
use std::alloc::{AllocError, Global};

// Keeps a job until the next one is asked for.
#[derive(Drop)]
pub(crate) struct OneJobCrew {
    job: Option<Job<Op>>,
}

impl OneJobCrew {
    pub(crate) fn new() -> OneJobCrew {
        OneJobCrew { job: None }
    }
}

impl Crew for OneJobCrew {
    ghost keeps = { true };

    ghost acts = { λ old step new. Unit {0} };

    fn keeps(&self) -> bool {
        true
    }

    fn give(&mut self, job: Job<Op>) -> Result<(), Job<Op>> {
        if self.job.is_some() {
            return Err(job);
        }
        self.job = Some(job);
        Ok(())
    }

    fn next(&mut self) -> Option<Done<Op>> {
        self.job.take().map(Job::run)
    }
}

// Hands back this many jobs, keeps the next one, and never hands over its result.
#[derive(Drop)]
pub(crate) struct StuckCrew {
    lets_go: u32,
    kept: Option<Job<Op>>,
}

impl StuckCrew {
    pub(crate) fn after(lets_go: u32) -> StuckCrew {
        StuckCrew {
            lets_go,
            kept: None,
        }
    }
}

impl Crew for StuckCrew {
    ghost keeps = { true };

    ghost acts = { λ old step new. Unit {0} };

    fn keeps(&self) -> bool {
        true
    }

    fn give(&mut self, job: Job<Op>) -> Result<(), Job<Op>> {
        if self.lets_go > 0 {
            self.lets_go -= 1;
            return Err(job);
        }
        if self.kept.is_some() {
            return Err(job);
        }
        self.kept = Some(job);
        Ok(())
    }

    fn next(&mut self) -> Option<Done<Op>> {
        None
    }
}

// Hands over a result from elsewhere in place of that of the job that it got.
#[derive(Drop)]
pub(crate) struct StrangeCrew {
    elsewhere: Option<Done<Op>>,
    job: Option<Job<Op>>,
}

impl StrangeCrew {
    pub(crate) fn with(done: Done<Op>) -> StrangeCrew {
        StrangeCrew {
            elsewhere: Some(done),
            job: None,
        }
    }
}

impl Crew for StrangeCrew {
    ghost keeps = { true };

    ghost acts = { λ old step new. Unit {0} };

    fn keeps(&self) -> bool {
        true
    }

    fn give(&mut self, job: Job<Op>) -> Result<(), Job<Op>> {
        self.job = Some(job);
        Ok(())
    }

    fn next(&mut self) -> Option<Done<Op>> {
        self.elsewhere.take()
    }
}

// Executes each job as it comes, and hands the results over last first. It reports in which order.
#[derive(Drop)]
pub(crate) struct LastFirstCrew {
    done: Vec<Done<Op>>,
    handed_over: Vec<u64>,
}

impl LastFirstCrew {
    // A crew that holds up to this many results, and reports as many.
    pub(crate) fn of(alloc: Global, jobs: usize) -> Result<LastFirstCrew, AllocError> {
        Ok(LastFirstCrew {
            done: Vec::with_capacity(alloc, jobs)?,
            handed_over: Vec::with_capacity(alloc, jobs)?,
        })
    }

    pub(crate) fn handed_over(&self) -> &[u64] {
        self.handed_over.as_slice()
    }
}

impl Crew for LastFirstCrew {
    ghost keeps = { true };

    ghost acts = { λ old step new. Unit {0} };

    fn keeps(&self) -> bool {
        true
    }

    fn give(&mut self, job: Job<Op>) -> Result<(), Job<Op>> {
        if self.done.len() == self.done.capacity() {
            return Err(job);
        }
        self.done.push_reserved(job.run());
        Ok(())
    }

    fn next(&mut self) -> Option<Done<Op>> {
        let done = self.done.pop()?;
        if self.handed_over.len() < self.handed_over.capacity() {
            self.handed_over.push_reserved(done.number());
        }
        Some(done)
    }
}
