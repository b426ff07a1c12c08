//! What holds for the log after one ask and after many, and the limit.
ghost use Rattle.std.specs.Prelude.{◌≡◌, List, []};
ghost use Rattle.sb_calls.specs.declared.ask.Key.{Key as AnyKey};
ghost use Rattle.sb_calls.specs.declared.call.Call.{Call as AnyCall};
ghost use Rattle.sb_sequencer.specs.Answer.{AsksExtendFirstAsks, AsksStepLog};
ghost use Rattle.sb_sequencer.specs.Log.{log_after};
ghost use Rattle.sb_sequencer.specs.Numbering.{first_asks};

use crate::sequencer::RESEND;

/// A sequencer sends at most 16 entries again at a time.
pub fn limits()
    ensures resend { RESEND ≡ 16 }
{}

/// An ask takes the log one step, unless memory is refused. So if the log is the first asks of those
/// that came before, whatever they were, it is then the first asks of these and this one.
pub fn asks_step_the_log()
    ensures step { AsksStepLog }
    ensures numbering { AsksExtendFirstAsks }
{}

/// Asks that come one by one, from an empty log on, leave the first ask of each key, in order, up
/// to the greatest number of calls in a log.
pub fn numbering()
    ensures { (asks : List (AnyKey × AnyCall)) → log_after [] asks ≡ first_asks asks }
{}
