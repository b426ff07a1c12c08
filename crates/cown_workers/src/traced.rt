//! A crew whose exchanges are recorded.
ghost use Rattle.std.specs.Prelude.{◌≡◌, []};
ghost use Rattle.cown_workers.specs.Traces.{Traces};

use crate::crew::Crew;
use arrayvec::ArrayVec;
use cown_board::{Done, Job};
use sb_calls::Op;
use std::marker::Model;

// The greatest number of notices. Contracts have it as a number.
const NOTICES: usize = 64;

/// The notice of an exchange with a crew.
#[derive(Clone, Copy, Debug, PartialEq, Eq)]
pub enum Notice {
    /// The job with this number was given, and the crew keeps it.
    Given(u64),
    /// The job with this number was given, and came back.
    Back(u64),
    /// The result of the job with this number was handed over.
    Came(u64),
}

/// The notice of no job, since their numbers begin with 1. It fills the slots without a notice.
impl Default for Notice {
    fn default() -> Notice {
        Notice::Given(0)
    }
}

/// Another crew, with a record of its first 64 exchanges, in order. Asking it is recorded only if
/// it hands something over. Until it has 64 notices it does what the other crew does, and waits
/// where that waits. From then on it hands each job back without giving it to the other crew, and
/// what that hands over isn't recorded.
///
/// Contracts see it as the other crew and its notices.
#[derive(Drop)]
pub struct Traced<C: Crew> {
    crew: C,
    notices: ArrayVec<Notice, NOTICES>,
}

impl<C: Crew> Model for Traced<C> {
    ghost use Rattle.cown_workers.specs.Traces.{TracedOf};

    ghost Value = { TracedOf C };

    ghost view = { λ traced. record { crew = traced.crew; notices = traced.notices.items } };
}

impl<C: Crew> Traced<C> {
    /// This crew, without any notice yet. A borrowed crew is enough, because `&mut C` is a crew
    /// too.
    pub fn new(crew: C) -> Traced<C>
        ensures { result ≡ record { crew = crew; notices = [] } }
    {
        Traced {
            crew,
            notices: ArrayVec::new(),
        }
    }

    /// The notices, in order.
    pub fn notices(&self) -> &[Notice]
        ensures { result.now ≡ self.now.notices }
    {
        self.notices.as_slice()
    }
}

impl<C: Crew> Crew for Traced<C> {
    ghost keeps = { C.keeps };

    ghost acts = { λ old step new. Traces C.acts old step new };

    fn keeps(&self) -> bool {
        self.crew.keeps()
    }

    fn give(&mut self, job: Job<Op>) -> Result<(), Job<Op>> {
        if self.notices.is_full() {
            return Err(job);
        }
        let number = job.number();
        let given = self.crew.give(job);
        self.notices.push(match &given {
            Ok(()) => Notice::Given(number),
            Err(_) => Notice::Back(number),
        });
        given
    }

    fn next(&mut self) -> Option<Done<Op>> {
        let done = self.crew.next()?;
        if !self.notices.is_full() {
            self.notices.push(Notice::Came(done.number()));
        }
        Some(done)
    }
}
