//! How many asks the log answered.
ghost use Rattle.std.specs.Prelude.{◌≡◌, ◌+◌, ◌<◌, ◌^◌};
ghost use Rattle.bank_server.specs.AskCounts.{counts_since, no_asks};
ghost use Rattle.bank_server.specs.inner.CountedAsks.{AddsCounts, counts_with};

use sb_sequencer::{AskFault, Numbered};

/// How many asks the log answered, by what it answered. A count that would pass 2^64 - 1 stays there.
#[derive(Clone, Copy, Debug, PartialEq, Eq)]
pub struct AskCounts {
    /// The new ones, each of which is an entry of the log.
    pub entries: u64,
    /// Those that had been asked before, with the same call.
    pub repeats: u64,
    /// Those that were answered `mismatch` or `log full`.
    pub refusals: u64,
}

impl AskCounts {
    /// Before the first ask.
    pub fn new() -> AskCounts
        ensures { result ≡ no_asks }
    {
        AskCounts {
            entries: 0,
            repeats: 0,
            refusals: 0,
        }
    }

    /// All of them.
    pub fn asks(&self) -> u64
        ensures { self.now.entries + self.now.repeats + self.now.refusals < 2 ^ 64
            → result ≡ self.now.entries + self.now.repeats + self.now.refusals }
    {
        self.entries
            .saturating_add(self.repeats)
            .saturating_add(self.refusals)
    }

    /// One ask more, with this answer. One that was refused memory isn't counted.
    pub(crate) fn count_answer(&mut self, answer: Result<Numbered, AskFault>)
        ensures { self.new ≡ counts_with self.old answer }
    {
        match answer {
            Ok(Numbered::New(_)) => self.entries = self.entries.saturating_add(1),
            Ok(Numbered::Repeat(_)) => self.repeats = self.repeats.saturating_add(1),
            Err(AskFault::Mismatch(_) | AskFault::LogFull) => {
                self.refusals = self.refusals.saturating_add(1);
            }
            Err(AskFault::OutOfMemory) => (),
        }
    }

    /// Adds these.
    pub(crate) fn add(&mut self, more: &AskCounts)
        ensures { AddsCounts self.old more.now self.new }
    {
        self.entries = self.entries.saturating_add(more.entries);
        self.repeats = self.repeats.saturating_add(more.repeats);
        self.refusals = self.refusals.saturating_add(more.refusals);
    }

    /// Those that were asked since there were as many as `earlier`.
    pub fn since(&self, earlier: &AskCounts) -> AskCounts
        ensures { result ≡ counts_since self.now earlier.now }
    {
        AskCounts {
            entries: self.entries.saturating_sub(earlier.entries),
            repeats: self.repeats.saturating_sub(earlier.repeats),
            refusals: self.refusals.saturating_sub(earlier.refusals),
        }
    }
}
