//! What a server that goes on does with its followers.
ghost use Rattle.std.specs.Prelude.{◌≡◌, ◌+◌, ◌<◌, false, length, IfErr, OnOk};
ghost use Rattle.cown_workers.specs.Draining.{HasNoneOut};
ghost use Rattle.bank_server.specs.Primary.{PreservesBank};
ghost use Rattle.bank_service.specs.ServeFaults.{IsServingFault};

use crate::serve_fault::ServeFault;
use bank_server::{COMPARED_ENTRIES, Followers, Primary};
use cown_workers::Crew;
use sb_ask_log::Keeper;
use sb_checkpoint::CheckpointStore;
use sb_sequencer::Sequencer;
use std::alloc::AllocError;
use std::sync::Wait;

// How many entries are numbered before the followers are sent them, unless a session ends.
const FEED: u64 = 1_024;

/// Sends the followers the entries that they lack, if there are many since this many were fed.
pub(crate) fn feed_if_many<R: Wait>(
    log: &Sequencer,
    fed: &mut u64,
    followers: &mut Followers<'_, R>,
) -> Result<(), AllocError>
    ensures nodes { followers.new.nodes ≡ followers.old.nodes }
{
    if log.length().saturating_sub(*fed) < FEED {
        return Ok(());
    }
    followers.feed(log)?;
    *fed = log.length();
    Ok(())
}

/// Compares node 0 with the followers, if that is due at the log's length. First it executes the whole
/// log, and what the followers lack is sent to them.
///
/// Fails with [`ServeFault::Run`] if a follower differs, the crew is gone, or memory is refused.
pub(crate) fn compare_if_due<R: Wait, S: CheckpointStore, K: Keeper, C: Crew>(
    primary: &mut Primary<S, K>,
    followers: &mut Followers<'_, R>,
    crew: &mut C,
) -> Result<(), ServeFault>
    ensures compared { OnOk result (length primary.new.log < followers.new.compared + COMPARED_ENTRIES) }
    ensures log { primary.new.log ≡ primary.old.log }
    ensures bank { PreservesBank K.model primary.old primary.new }
    ensures none_out { C.keeps ≡ false → HasNoneOut primary.old.node.board → HasNoneOut primary.new.node.board }
    ensures nodes { followers.new.nodes ≡ followers.old.nodes }
    ensures fault { IfErr result (IsServingFault followers.old.nodes
        (C.keeps ≡ false → ¬ HasNoneOut primary.old.node.board) false K.model.fails) }
{
    if !followers.is_comparison_due(primary.log().length()) {
        return Ok(());
    }
    primary.settle(crew)?;
    followers.feed(primary.log())?;
    Ok(followers.compare(primary.node())?)
}
