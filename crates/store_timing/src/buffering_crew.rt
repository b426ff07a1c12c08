//! A crew that holds jobs, without threads.
ghost use Rattle.std.specs.Prelude.{◌≡◌, [], true, IfOk};

use cown_board::{Done, Job};
use cown_workers::Crew;
use sb_calls::Op;
use std::alloc::{AllocError, Global};

// How many results it buffers at most: as many as a crew may have workers.
const CAPACITY: usize = 16;

/// A crew that executes each job as it is given, and buffers the result until it is asked for one.
#[derive(Drop)]
pub struct BufferingCrew {
    results: Vec<Done<Op>>,
}

impl BufferingCrew {
    /// A crew that buffers nothing yet.
    pub fn new(alloc: Global) -> Result<BufferingCrew, AllocError>
        ensures { IfOk result (λ crew. crew.results.items ≡ []) }
    {
        let results = Vec::with_capacity(alloc, CAPACITY)?;
        Ok(BufferingCrew { results })
    }
}

impl Crew for BufferingCrew {
    ghost keeps = { true };

    ghost acts = { λ old step new. Unit {0} };

    fn keeps(&self) -> bool {
        true
    }

    fn give(&mut self, job: Job<Op>) -> Result<(), Job<Op>> {
        if self.results.len() == self.results.capacity() {
            return Err(job);
        }
        self.results.push_reserved(job.run());
        Ok(())
    }

    fn next(&mut self) -> Option<Done<Op>> {
        self.results.pop()
    }
}
