//! Who takes the bodies of a log that is read.
ghost use Rattle.std.specs.Prelude.{List, ℕ, MatchResult};
ghost use Rattle.sb_log.specs.Replaying.{IsReplayFault};

use thiserror::Error;

/// Why a body isn't taken.
#[derive(Clone, Copy, Debug, PartialEq, Eq, Error)]
pub enum ReplayFault {
    /// No log has such a body here.
    #[error("refused")]
    Refused,
    /// Memory was refused.
    #[error("out of memory")]
    OutOfMemory,
}

/// Takes the bodies of a log's records, one after another.
pub trait Replay {
    /// What taking a body does.
    ghost Replays: { Self → List ℕ → Self → Type 0 };

    /// Why a body is refused.
    ghost Refuses: { Self → List ℕ → Type 0 };

    /// Takes the next body.
    fn replay(&mut self, body: &[u8]) -> Result<(), ReplayFault>
        ensures { MatchResult result (λ done. Replays self.old body.now self.new)
            (IsReplayFault (Refuses self.old body.now)) };
}
