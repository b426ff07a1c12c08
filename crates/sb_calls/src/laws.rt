//! How a log's replies relate to its calls, and its rows to their total, and how long a reply is.
ghost use Rattle.std.specs.Prelude.{◌≡◌, ◌≤◌, ℕ, suc, pos, List, length, slice_get};
ghost use Rattle.sb_calls.specs.declared.call.Call.{Call};
ghost use Rattle.sb_calls.specs.Log.{replies_to, reply_to};
ghost use Rattle.sb_calls.specs.Net.{TotalByNet};
ghost use Rattle.sb_calls.specs.CownLaws.{EffectsByProcedure, LogsByCowns, OpsDeclareTouched, RepliesHaveSpellings};
ghost use Rattle.sb_calls.specs.Conflicts.{ConflictsByName};
ghost use Rattle.sb_calls.specs.Replies.{RepliesHaveOneCode};
ghost use Rattle.sb_calls.specs.ReplyText.{reply_text};
ghost use Rattle.sb_calls.specs.Touches.{Locality};
ghost use Rattle.sb_rows.specs.Rows.{Rows};

use crate::call::LOG_CALLS;
use crate::cowns::{BEHAVIOUR_COWNS, PENALTY};
use crate::nodes::{REPLICAS, WORKERS};
use crate::reply::Reply;
use crate::wire_reply::TOTAL_LIMIT;
use sb_amount::totals_are_short;

/// The limits, as numbers: a log takes a million calls, the penalty of a check is 100 cents, a
/// behaviour declares at most 3 cowns, and a total that is shown is at most twice the limit of a
/// balance. A bank has at most 16 replicas, and each of them at most 16 workers.
pub fn limits()
    ensures calls { LOG_CALLS ≡ 1000000 }
    ensures penalty { PENALTY ≡ pos 100 }
    ensures cowns { BEHAVIOUR_COWNS ≡ 3 }
    ensures total { TOTAL_LIMIT ≡ pos 2000000000000 }
    ensures replicas { REPLICAS ≡ 16 }
    ensures workers { WORKERS ≡ 16 }
{}

/// The replies to a log are, number by number, the replies to its calls on the rows after the calls
/// before.
pub fn replies_one_by_one()
    ensures { (opening : Rows) (log : List Call) (k : ℕ)
        → slice_get (replies_to opening log) k ≡ reply_to opening log (suc k) }
{}

/// The bank's total after the first calls of a log is the opening's plus the net changes of these
/// calls.
pub fn total_by_net()
    ensures { TotalByNet }
{}

/// Between rows with the same names, the reply to a call, and the new balances of what it touches,
/// depend on these balances alone. It leaves all others.
pub fn calls_are_local()
    ensures { Locality }
{}

/// The op of a call declares the cowns of the balances that the call touches, and no others.
pub fn ops_declare_touched()
    ensures { OpsDeclareTouched }
{}

/// The effect of a call's op on the values of its cowns is the procedure of the call: once its
/// outputs are written to these cowns, the rows are those after the procedure, and the reply is the
/// same.
pub fn effects_by_procedure()
    ensures { EffectsByProcedure }
{}

/// A log of calls, looked up and run one by one over their cowns, gives the replies and the rows of
/// the calls run one by one.
pub fn logs_by_cowns()
    ensures { LogsByCowns }
{}

/// Each reply of a log run one by one, from the balances of a bank, shows at most the sum of two
/// balances, so frames and checkpoints can spell it.
pub fn replies_have_spellings()
    ensures { RepliesHaveSpellings }
{}

/// The text of a reply takes at most 32 bytes, whatever total it shows.
#[inline]
pub fn replies_are_short(reply: Reply)
    ensures { length (reply_text reply) ≤ 32 }
{
    if let Reply::Shown(total) = reply {
        totals_are_short(total);
    }
}

/// Two calls share a declared cown exactly if they share a touched balance.
pub fn conflicts_by_name()
    ensures { ConflictsByName }
{}

/// A code and a total are read as the one reply that they spell.
pub fn replies_have_one_code()
    ensures { RepliesHaveOneCode }
{}
