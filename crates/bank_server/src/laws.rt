//! The laws that tie the output to the sequencer's answers, and comparisons to one another.
ghost use Rattle.bank_server.specs.Agreement.{ComparisonsAddUp};
ghost use Rattle.bank_server.specs.AskResults.{AnswersAreFinal};
ghost use Rattle.bank_server.specs.Session.{ToldOutcomesStand};
ghost use Rattle.std.specs.Prelude.{◌≡◌};

use crate::followers::COMPARED_ENTRIES;
use crate::session::READ_BYTES;

/// The sequencer's answer to an ask (a new number, a repeat, a mismatch or a full log) is its
/// standing in the log for good, and so in the output, whatever is asked after it.
pub fn answers_are_final()
    ensures { AnswersAreFinal }
{}

/// The outcome of an ask, once told, is its outcome over every longer log too: the reply to a
/// number depends on the calls up to it alone.
pub fn told_outcomes_stand()
    ensures { ToldOutcomesStand }
{}

/// Boards that have the same replies up to a number, and agree since then, agree: what a comparison
/// found to be the same isn't compared again.
pub fn comparisons_add_up()
    ensures { ComparisonsAddUp }
{}

/// After how many entries node 0 is compared with its followers.
pub fn limits()
    ensures { COMPARED_ENTRIES ≡ 65536 }
{}

/// How much of a client a turn reads at once.
pub fn client_bounds()
    ensures read { READ_BYTES ≡ 65536 }
{}
