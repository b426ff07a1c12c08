//! What a follower is sent.
use super::lent_replica::LentReplica;
use std::alloc::Global;
use std::sync::Arc;

/// What a follower is sent.
#[derive(Drop)]
pub(crate) enum Message {
    /// Some whole frames, which all followers share.
    Frames(Arc<Vec<u8>, Global>),
    /// Node 0 wants the follower's replica, once what came before is handled.
    Lend,
    /// The replica that the follower lent.
    Back(LentReplica),
}
