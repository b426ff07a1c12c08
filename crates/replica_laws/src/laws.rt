//! From the reference machine to the threads of followers and of node 0.
ghost use Rattle.replica_laws.specs.AskAppends.{AsksAppend};
ghost use Rattle.replica_laws.specs.FollowerEvents.{MessagesAreEvents};
ghost use Rattle.replica_laws.specs.FollowerMoves.{FollowersMove, FollowersOpen, MessagesMove};
ghost use Rattle.replica_laws.specs.KeepingSyncs.{KeepingSyncs};
ghost use Rattle.replica_laws.specs.Node0Events.{Node0Events};
ghost use Rattle.replica_laws.specs.Node0Moves.{Node0Moves, Node0Opens, Node0Stays};

use sb_checkpoint::CheckpointStore;
use sb_log::LogFile;

/// A replica at the opening of a bank, which has stored nothing, is one of that bank. It is the
/// replica of the reference machine at the opening, with one worker.
pub fn followers_open()
    ensures { FollowersOpen }
{}

/// The turns of a follower that is one of the bank, and is sent its log, are moves of the reference
/// machine: frames come, and its one worker takes and finishes. The machine hears exactly the frames
/// that the follower's stream hands out. The follower stays one of the bank.
pub fn followers_move()
    ensures { FollowersMove }
{}

/// So are all the messages that such a follower handles. If their bytes spell frames of the log,
/// however they are cut, the machine hears exactly these frames, and no byte is left unread.
pub fn messages_move()
    ensures { MessagesMove }
{}

/// They are events at any replica of the machine to which these frames were sent: a frame comes, or
/// its first worker takes or finishes.
pub fn messages_are_events()
    ensures { MessagesAreEvents }
{}

/// Replica 0 at the opening of a bank is node 0 of that bank. It is the replica of the reference
/// machine at the opening, with one worker, and what a restart leaves of node 0 in that machine,
/// where it has stored nothing.
pub fn node0_opens<S: CheckpointStore>()
    ensures { Node0Opens S }
{}

/// The turns of a replica that is node 0 of the bank are moves of the reference machine: entries of
/// the log come, and its one worker takes and finishes. Node 0 works with a crew. In the machine an
/// entry that is out at the crew still waits: the worker takes it just before it finishes it. The
/// replica stays node 0 of the bank.
pub fn node0_moves<S: CheckpointStore>()
    ensures { Node0Moves S }
{}

/// They are events at replica 0 of the machine, if each entry of the log was sent to it: a frame
/// comes, or its first worker takes or finishes.
pub fn node0_events<S: CheckpointStore>()
    ensures { Node0Events S }
{}

/// Node 0 of a bank is node 0 of each bank whose log goes on from there, as long as that log isn't
/// longer than a log may be.
pub fn node0_stays<S: CheckpointStore>()
    ensures { Node0Stays S }
{}

/// An ask is an append of the reference machine. If the machine's log is the first asks of those
/// before, the machine can append this one, and its log is then the first asks of these with this one.
pub fn asks_append()
    ensures { AsksAppend }
{}

/// Keeping the log is a sync of the reference machine, and a start on what was kept is a crash. If a
/// bank's keeper keeps the machine's log in an honest file, and no call of the file failed, the machine
/// can sync; and whatever a stop leaves of the file, a start reads the log of that machine after some
/// crash.
pub fn keeping_syncs<F: LogFile>()
    ensures { KeepingSyncs F.IsHonest F.model }
{}
