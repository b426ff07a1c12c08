//! A follower's replica, which node 0 borrows to compare itself with it.
ghost use Rattle.std.specs.Prelude.{◌≡◌, ◌↔◌, None};
ghost use Rattle.bank_server.specs.Agreement.{AgreesSince};

use super::agreement::difference;
use super::stray_reason::StrayReason;
use sb_checkpoint::{CheckpointStore, MemoryStore};
use sb_replica::Replica;

/// A follower's replica, and why the follower stopped early, if it did.
#[derive(Drop)]
pub(crate) struct LentReplica {
    pub(crate) replica: Box<Replica<MemoryStore>>,
    pub(crate) stop: Option<StrayReason>,
}

impl LentReplica {
    /// Why it strayed from this node 0 since this number, if it did: why it stopped early, or else how
    /// it differs.
    pub(crate) fn reason<S: CheckpointStore>(
        &self,
        node: &Replica<S>,
        from: u64,
    ) -> Option<StrayReason>
        ensures { (result ≡ None) ↔ AgreesSince from node.now.board self.now.replica.value.board }
    {
        let difference = difference(node, &self.replica, from)?;
        Some(self.stop.unwrap_or(difference))
    }
}
