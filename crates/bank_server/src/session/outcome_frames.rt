//! Sending a client the outcomes of its asks.
ghost use Rattle.std.specs.Prelude.{◌≡◌, ◌++◌, ◌∷◌, [], List, length, OnOk};
ghost use Rattle.std.specs.List.{flat_map};
ghost use Rattle.sb_calls.specs.declared.ask.Key.{Key as AnyKey};
ghost use Rattle.sb_calls.specs.declared.reply.Reply.{Reply as AnyReply};
ghost use Rattle.sb_frames.specs.declared.frame.Frame.TheVariants.{Outcome};
ghost use Rattle.sb_frames.specs.Grammar.{spelling};
ghost use Rattle.cown_board.specs.Board.{unfinished_of};
ghost use Rattle.bank_server.specs.Execution.{HasReplies};
ghost use Rattle.bank_server.specs.Pending.{ArePendingWithin};
ghost use Rattle.bank_server.specs.Session.{outcome_by};
ghost use Rattle.bank_server.specs.Standing.{IsStandingWithin};

use super::inbox::PendingAsk;
use crate::answers::reply_to;
use crate::input::Standing;
use sb_calls::WireReply;
use sb_checkpoint::CheckpointStore;
use sb_frames::{AskOutcome, Frame, encode};
use sb_replica::Replica;
use std::alloc::AllocError;

/// Writes the outcome of each ask, in order, as frames, with the replies of the replica that
/// executed the log.
pub(crate) fn push_outcomes<S: CheckpointStore>(
    pending: &[PendingAsk],
    replica: &Replica<S>,
    out: &mut Vec<u8>,
) -> Result<(), AllocError>
    requires idle { unfinished_of replica.now.board ≡ 0 }
    requires earlier { replica.now.board.base_replies ≡ [] }
    requires among { ArePendingWithin (length replica.now.board.log) pending.now }
    ensures { (replies : List AnyReply) → HasReplies replica.now.board replies → OnOk result (out.new.items
        ≡ out.old.items ++ flat_map (λ ask. flat_map spelling (outcome_by replies ask.key ask.standing)) pending.now) }
{
    for ask in pending {
        let outcome = outcome_of(ask.standing, replica);
        out.extend_from_slice(&encode(&Frame::Outcome {
            client: ask.key.client,
            request: ask.key.request,
            outcome,
        }))?;
    }
    Ok(())
}

// The outcome of an ask with this standing in the log.
fn outcome_of<S: CheckpointStore>(standing: Standing, replica: &Replica<S>) -> AskOutcome
    requires idle { unfinished_of replica.now.board ≡ 0 }
    requires earlier { replica.now.board.base_replies ≡ [] }
    requires among { IsStandingWithin (length replica.now.board.log) standing }
    ensures { (replies : List AnyReply) → HasReplies replica.now.board replies
        → (key : AnyKey) → outcome_by replies key standing ≡ Outcome key.client key.request result ∷ [] }
{
    match standing {
        Standing::Number(number) => {
            // Each reply of a replica has a spelling.
            let reply = WireReply::new(reply_to(replica, number)).unwrap();
            AskOutcome::Replied(reply)
        }
        Standing::Mismatch(_) => AskOutcome::Mismatch,
        Standing::LogFull => AskOutcome::LogFull,
    }
}
