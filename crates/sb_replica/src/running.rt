//! A replica runs its board's behaviours, and keeps all else.
use crate::replica::Replica;
use cown_board::{Board, Done, Job, Runs};
use sb_calls::{Op, Reply};
use sb_checkpoint::CheckpointStore;

// The board of its log runs them.
impl<S: CheckpointStore> Runs for Replica<S> {
    ghost use Rattle.std.specs.Prelude.{List, Option};
    ghost use Rattle.std.specs.List.{All};
    ghost use Rattle.sb_calls.specs.Replies.{IsReply};
    ghost use Rattle.sb_calls.specs.declared.op.Op.{Op as AnyOp};
    ghost use Rattle.sb_replica.specs.Replica.{RestOf, rest_of};

    ghost board = { λ replica. replica.board };

    // Each reply from before its board has a spelling.
    ghost Holds = { λ replica. All IsReply replica.board.base_replies };

    ghost Rest = { RestOf S × List (Option AnyOp) };

    ghost rest = { λ replica. (rest_of replica, replica.held) };

    #[inline(always)]
    fn take_at(&mut self, index: usize) -> Option<Job<Op>> {
        self.log.board.take_at(index)
    }

    #[inline(always)]
    fn finish(&mut self, done: Done<Op>) -> Result<Reply, Done<Op>> {
        self.log.board.finish(done)
    }

    #[inline]
    fn board(&self) -> &Board<Op> {
        &self.log.board
    }
}
