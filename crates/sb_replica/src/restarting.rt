//! Going back to the stored checkpoint.
ghost use Rattle.std.specs.Prelude.{◌≡◌, ◌≤◌, [], IfOk, IfErr, length, option_map};
ghost use Rattle.std.specs.List.{All};
ghost use Rattle.sb_calls.specs.Replies.{IsReply};
ghost use Rattle.cown_board.specs.BoardCalls.{board_at_opening};
ghost use Rattle.sb_replica.specs.Log.{none_held};
ghost use Rattle.sb_checkpoint.specs.Stores.{StoreDoes};
ghost use Rattle.sb_replica.specs.Replica.{origin_of, with_log};
ghost use Rattle.sb_replica.specs.Restarting.{Restarts, IsRestartFaultOf, IsBoardOn, IsRefusalOf};

use crate::fault::RestartFault;
use crate::replica::Replica;
use crate::replica_log::ReplicaLog;
use cown_board::{Board, Runs};
use sb_calls::{LOG_CALLS, Reply};
use sb_checkpoint::CheckpointStore;
use sb_rows::Columns;
use std::alloc::{AllocError, Global};

// A log with a board on these columns, and with the replies to the numbers before it.
pub(crate) fn log_on(
    alloc: Global,
    columns: Columns,
    replies: Vec<Reply>,
) -> Result<ReplicaLog, AllocError>
    requires { length replies.items ≤ LOG_CALLS }
    ensures { IfOk result (λ log. log ≡ record {
      board = board_at_opening columns replies.items;
      held = none_held;
    }) }
{
    let length = replies.len() as u64;
    let board = Board::open(alloc, columns, length, replies)?;
    Ok(ReplicaLog::with_board(board))
}

// An empty log with a board on a copy of these columns.
pub(crate) fn log_at_opening(alloc: Global, opening: &Columns) -> Result<ReplicaLog, AllocError>
    ensures { IfOk result (λ log. log ≡ record {
      board = board_at_opening opening.now [];
      held = none_held;
    }) }
{
    let columns = opening.copy()?;
    log_on(alloc, columns, Vec::new(alloc))
}

impl<S: CheckpointStore> Replica<S> {
    /// Goes back to the stored checkpoint, or to the opening if none was ever put, and answers the
    /// length there. The replica forgets what it accepted since and what it holds, until that comes
    /// again.
    ///
    /// Fails if the store does, if what that holds isn't a checkpoint of this bank, or if memory is
    /// refused. All but the store is then as it was.
    pub fn restart(&mut self) -> Result<u64, RestartFault>
        ensures ok { IfOk result (λ size.
            Restarts (StoreDoes S.model) self.old size self.new) }
        ensures err { IfErr result (λ fault.
            IsRestartFaultOf (StoreDoes S.model) self.old fault self.new) }
    {
        let content = self.store.get()?;
        let log = self.stored_log(content)?;
        self.replace_log(log);
        Ok(self.length())
    }

    // The old log is gone, with its cut and the ops that it held.
    pub(crate) fn replace_log(&mut self, log: ReplicaLog)
        requires customers { length log.board.opening.savings ≡ length self.old.names }
        requires replies { All IsReply log.board.base_replies }
        ensures { self.new ≡ with_log self.old log }
    {
        self.log = log;
    }

    // A log with a board on what the store holds.
    fn stored_log(&self, content: Option<Vec<u8>>) -> Result<ReplicaLog, RestartFault>
        ensures log { IfOk result (λ log. IsBoardOn self.now.opening (origin_of self.now)
            (option_map (λ bytes. bytes.items) content) log.board) }
        ensures no_held_entry { IfOk result (λ log. log.held ≡ none_held) }
        ensures customers { IfOk result (λ log. length log.board.opening.savings ≡ length self.now.names) }
        ensures replies { IfOk result (λ log. All IsReply log.board.base_replies) }
        ensures err { IfErr result
            (IsRefusalOf (origin_of self.now) (option_map (λ bytes. bytes.items) content)) }
    {
        let Some(bytes) = content else {
            return Ok(log_at_opening(self.alloc, &self.opening)?);
        };
        let (columns, replies) = self.checkpoint_in(&bytes)?.into_parts();
        // The board takes memory of its own.
        drop(bytes);
        Ok(log_on(self.alloc, columns, replies)?)
    }
}
