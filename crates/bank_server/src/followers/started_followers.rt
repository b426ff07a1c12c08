//! The followers of node 0, each in a thread of its own.
ghost use Rattle.std.specs.Prelude.{◌≡◌, ◌+◌, ◌-◌, ◌<◌, ◌≤◌, ◌↔◌, length, max, IfErr, IfNone, IfOk, IsTrue, OnErr, OnOk};
ghost use Rattle.std.specs.Fn.{FnOnceReturnsAtMut};
ghost use Rattle.bank_server.specs.Faults.{IsFollowersFault};
ghost use Rattle.cown_board.specs.Board.{length_of};

use super::channels::FollowerChannels;
use super::follower_threads::start_threads;
use super::ready_followers::ReadyFollowers;
use crate::fault::RunFault;
use crate::node0::PART;
use cown_board::Runs;
use sb_checkpoint::CheckpointStore;
use sb_replica::Replica;
use sb_sequencer::Sequencer;
use std::alloc::{AllocError, Global};
use std::marker::Model;
use std::sync::Wait;
use std::thread;
use std::thread::Threads;

/// After how many entries node 0 is compared with its followers.
pub const COMPARED_ENTRIES: u64 = 65_536;

/// The followers of node 0, each in a thread of its own, which receive the log as frames. Contracts
/// see the number of nodes, the number of followers that listen, the number of entries of the log
/// that they were sent, and how many entries node 0 had when they were compared last.
#[derive(Drop)]
pub struct Followers<'a, R: Wait> {
    nodes: usize,
    sent: usize,
    compared: u64,
    channels: FollowerChannels<'a, R>,
}

impl<'a, R: Wait> Model for Followers<'a, R> {
    ghost use Rattle.std.specs.Prelude.{length};
    ghost use Rattle.bank_server.specs.Followers.{FollowersOf};

    ghost Value = { FollowersOf };

    ghost view = { λ f. record {
      nodes = f.nodes;
      listening = length f.channels.links.items;
      sent = f.sent;
      compared = f.compared;
    } };
}

impl<'a, R: Wait> Followers<'a, R> {
    /// Whether no follower listens: there are none.
    pub fn is_empty(&self) -> bool
        ensures { IsTrue result ↔ (self.now.listening ≡ 0) }
    {
        self.channels.is_empty()
    }

    /// Sends the followers the entries of the log that they don't have yet, and has them execute
    /// these.
    ///
    /// Fails if memory is refused. [`Followers::compare`] finds out whether a follower is gone.
    pub fn feed(&mut self, log: &Sequencer) -> Result<(), AllocError>
        ensures sent { OnOk result (self.new.sent ≡ max self.old.sent (length log.now.log)) }
        ensures unchanged { self.new ≡ record self.old { sent = self.new.sent } }
    {
        let length = log.length() as usize;
        while self.sent < length {
            let end = self.sent + PART.min(length - self.sent);
            self.send_up_to(Some(log), end)?;
        }
        self.flush()
    }

    // Sends them the entries up to this number that they don't have yet. Without listeners no log
    // is needed.
    pub(crate) fn send_up_to(
        &mut self,
        log: Option<&Sequencer>,
        end: usize,
    ) -> Result<(), AllocError>
        requires log_given { IfNone log (self.old.listening ≡ 0) }
        ensures sent { OnOk result (self.new ≡ record self.old { sent = end }) }
        ensures err { OnErr result (self.new ≡ self.old) }
    {
        if let Some(log) = log {
            self.channels.send_part(log, self.sent, end)?;
        }
        self.sent = end;
        Ok(())
    }

    // Has them execute what they were sent.
    pub(crate) fn flush(&mut self) -> Result<(), AllocError>
        ensures { self.new ≡ self.old }
    {
        self.channels.flush()
    }

    /// Whether node 0 is to be compared at this length: it has [`COMPARED_ENTRIES`] entries or more
    /// since the last comparison.
    pub fn is_comparison_due(&self, length: u64) -> bool
        ensures { IsTrue result ↔ (self.now.compared + COMPARED_ENTRIES ≤ length) }
    {
        length.saturating_sub(self.compared) >= COMPARED_ENTRIES
    }

    /// Compares node 0 with each follower, once that has executed everything that it was sent: the
    /// replies since the last comparison, and all columns.
    ///
    /// Fails with [`RunFault::Strayed`] at the first follower that differs.
    pub fn compare<S: CheckpointStore>(&mut self, node: &Replica<S>) -> Result<(), RunFault>
        ensures compared { OnOk result (self.new.compared ≡ length_of node.now.board) }
        ensures unchanged { self.new ≡ record self.old { compared = self.new.compared } }
        ensures fault { IfErr result (IsFollowersFault self.old.nodes) }
    {
        self.channels.compare_each(node, self.compared, self.nodes)?;
        self.compared = node.length();
        Ok(())
    }

    /// Does so if [it is due](Followers::is_comparison_due). Fails as [`Followers::compare`] does.
    pub fn compare_if_due<S: CheckpointStore>(&mut self, node: &Replica<S>) -> Result<(), RunFault>
        ensures compared { OnOk result
            (length_of node.now.board < self.new.compared + COMPARED_ENTRIES) }
        ensures unchanged { self.new ≡ record self.old { compared = self.new.compared } }
        ensures fault { IfErr result (IsFollowersFault self.old.nodes) }
    {
        if self.is_comparison_due(node.length()) {
            self.compare(node)
        } else {
            Ok(())
        }
    }
}

/// Starts these followers and hands them to `f`. Answers what `f` answers, once their threads have
/// ended. All of them listen, and nothing was sent to them or compared before.
///
/// Fails with [`RunFault::Strayed`] if a follower can't be started, and with
/// [`RunFault::OutOfMemory`] if memory is refused; then `f` isn't called.
pub fn with_followers<R, T, F>(
    rt: &R,
    alloc: Global,
    ready: ReadyFollowers,
    f: F,
) -> Result<T, RunFault>
where
    R: Threads + Wait + Sync,
    F: FnOnce(&mut Followers<'_, R>) -> T,
    requires callable { F.IsAlwaysCallable f }
    ensures answer { IfOk result (λ answer. (after : _) ×
        FnOnceReturnsAtMut F.FnOnce f
        (record { nodes = ready.nodes; listening = ready.nodes - 1; sent = 0; compared = 0 }) answer after) }
    ensures fault { IfErr result (IsFollowersFault ready.nodes) }
{
    let ReadyFollowers {
        nodes,
        links,
        followers,
    } = ready;
    let channels = FollowerChannels { rt, alloc, links };
    thread::scope(
        thread::scope_env(),
        rt,
        move |scope| -> Result<T, RunFault>
            requires callable { F.IsAlwaysCallable f }
            requires links { length channels.links.items ≡ nodes - 1 }
            ensures answer { IfOk result (λ answer. (after : _) ×
                FnOnceReturnsAtMut F.FnOnce f
                (record { nodes = nodes; listening = nodes - 1; sent = 0; compared = 0 }) answer after) }
            ensures fault { IfErr result (IsFollowersFault nodes) }
        {
            start_threads(scope, rt, followers, nodes)?;
            let mut followers = Followers {
                nodes,
                sent: 0,
                compared: 0,
                channels,
            };
            Ok(f(&mut followers))
        },
    )
}
