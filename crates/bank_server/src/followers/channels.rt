//! The log as frames, sent to the followers.
ghost use Rattle.std.specs.Prelude.{◌≡◌, ◌↔◌, length, IfErr, IsTrue};
ghost use Rattle.bank_server.specs.Faults.{IsFollowersFault};

use super::follower_link::FollowerLink;
use super::message::Message;
use super::stray_reason::StrayReason;
use crate::fault::RunFault;
use sb_checkpoint::CheckpointStore;
use sb_frames::{Frame, encode, encode_entry};
use sb_replica::Replica;
use sb_sequencer::Sequencer;
use std::alloc::{AllocError, Global};
use std::sync::{Arc, Wait};

// The usual number of bytes in the frames of as many entries as are sent at once.
const USUAL_PART: usize = 1 << 16;

/// Node 0's ends of the channels to the followers and from them, in order of their numbers.
#[derive(Drop)]
pub(crate) struct FollowerChannels<'a, R: Wait> {
    pub(crate) rt: &'a R,
    pub(crate) alloc: Global,
    pub(crate) links: Vec<FollowerLink>,
}

impl<'a, R: Wait> FollowerChannels<'a, R> {
    /// Whether there are none.
    pub(crate) fn is_empty(&self) -> bool
        ensures { IsTrue result ↔ (length self.now.links.items ≡ 0) }
    {
        self.links.is_empty()
    }

    /// Sends the entries of a log with the numbers from `from` + 1 to `to`.
    pub(crate) fn send_part(
        &self,
        log: &Sequencer,
        from: usize,
        to: usize,
    ) -> Result<(), AllocError> {
        if self.links.is_empty() {
            return Ok(());
        }
        let mut bytes = Vec::with_capacity(self.alloc, USUAL_PART)?;
        let calls = log.calls();
        for index in from..to.min(calls.len()) {
            bytes.extend_from_slice(&encode_entry(index as u64 + 1, &calls[index]))?;
        }
        self.send_to_all(bytes)
    }

    /// Has the followers execute what was sent.
    pub(crate) fn flush(&self) -> Result<(), AllocError> {
        if self.links.is_empty() {
            return Ok(());
        }
        self.send_to_all(Vec::from_slice(self.alloc, &encode(&Frame::Flush))?)
    }

    /// Compares node 0 with the followers of this many nodes, once they have executed what was sent:
    /// replies to numbers above this one, and all columns.
    ///
    /// Fails with [`RunFault::Strayed`] at the first that differs.
    pub(crate) fn compare_each<S: CheckpointStore>(
        &self,
        node: &Replica<S>,
        from: u64,
        nodes: usize,
    ) -> Result<(), RunFault>
        ensures fault { IfErr result (IsFollowersFault nodes) }
    {
        for number in 1..nodes {
            let Some(link) = self.links.get(number - 1) else {
                return Err(RunFault::Strayed(number, StrayReason::NoThread));
            };
            if let Some(reason) = link.compare_lent(self.rt, node, from) {
                return Err(RunFault::Strayed(number, reason));
            }
        }
        Ok(())
    }

    // Sends these bytes to each follower.
    fn send_to_all(&self, bytes: Vec<u8>) -> Result<(), AllocError> {
        let shared = Arc::new(self.alloc, bytes)?;
        for link in &self.links {
            link.send(self.rt, Message::Frames(Arc::try_clone(&shared)?));
        }
        Ok(())
    }
}
