//! The channels between node 0 and a follower.
use super::lent_replica::LentReplica;
use super::message::Message;
use super::stray_reason::StrayReason;
use crossbeam_channel::{Receiver, Sender, bounded};
use sb_checkpoint::CheckpointStore;
use sb_replica::Replica;
use std::alloc::{AllocError, Global};
use std::sync::Wait;

// How many messages may wait for a follower.
const MESSAGES: usize = 4;

/// Node 0's ends of the channels to a follower and from it.
#[derive(Drop)]
pub(crate) struct FollowerLink {
    inbox: Sender<Message>,
    outbox: Receiver<LentReplica>,
}

/// New channels: node 0's ends, the follower's inbox and its outbox.
///
/// Fails if memory is refused.
pub(crate) fn open_link(
    alloc: Global,
) -> Result<(FollowerLink, Receiver<Message>, Sender<LentReplica>), AllocError> {
    let (to, inbox) = bounded(alloc, MESSAGES)?;
    let (outbox, from) = bounded(alloc, 1)?;
    let link = FollowerLink {
        inbox: to,
        outbox: from,
    };
    Ok((link, inbox, outbox))
}

impl FollowerLink {
    /// Sends a message, and waits for room. The comparison finds out whether the follower is gone.
    pub(crate) fn send<R: Wait>(&self, rt: &R, message: Message) {
        let _ = self.inbox.send(rt, message);
    }

    /// Why the follower strayed from this node 0 since this number, if it did. It lends its replica once
    /// it has handled what it was sent, and gets it back.
    pub(crate) fn compare_lent<R: Wait, S: CheckpointStore>(
        &self,
        rt: &R,
        node: &Replica<S>,
        from: u64,
    ) -> Option<StrayReason> {
        self.send(rt, Message::Lend);
        let Ok(lent) = self.outbox.recv(rt) else {
            return Some(StrayReason::NoThread);
        };
        let reason = lent.reason(node, from);
        self.send(rt, Message::Back(lent));
        reason
    }
}
