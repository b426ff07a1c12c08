//! What holds for a board after every list of calls.
ghost use Rattle.std.specs.Prelude.{◌≡◌, ℕ, ℤ, List};
ghost use Rattle.sb_calls.specs.declared.reply.Reply.{Reply};
ghost use Rattle.cown_board.specs.BoardCalls.{BoardLaw};

use crate::board::OPEN_BEHAVIOURS;
use sb_calls::Behaviour;

/// What holds for an opened board, whatever is submitted, taken, given back and cut, in whatever
/// order. Its log is what was submitted, and each finished behaviour has its reply from the log run
/// one by one. While something is unfinished, the first unfinished number is ready or out. A cut's
/// length is at most the board's.
pub fn true_to_the_log<B: Behaviour>()
    ensures { BoardLaw B.touches B.effect }
{}

/// The greatest number of behaviours that may be unfinished at once, as a number.
pub fn limits()
    ensures { OPEN_BEHAVIOURS ≡ 1024 }
{}
