//! Where a replica stores its checkpoint.
ghost use Rattle.std.specs.Prelude.{◌≡◌, MatchResult, option_map};
ghost use Rattle.sb_checkpoint.specs.inner.FaultConversions.{store_fault_of};
ghost use Rattle.sb_checkpoint.specs.declared.store.StoreFault.TheVariants.{OutOfMemory};
ghost use Rattle.sb_checkpoint.specs.Stores.{Compares, StoreDoes, StoreModel, ReportsSame, Put, Get, GetFault};

use sb_text::ReadFault;
use std::alloc::AllocError;
use thiserror::Error;

/// Why a store failed.
#[derive(Clone, Copy, Debug, PartialEq, Eq, Error, Drop)]
pub enum StoreFault {
    /// The device failed. After a put the store holds wholly the old or wholly the new bytes.
    #[error("device fault")]
    Device,
    /// Memory was refused. The store holds the old bytes.
    #[error("out of memory")]
    OutOfMemory,
}

impl From<AllocError> for StoreFault {
    ghost from_gives = { λ _ fault. fault ≡ OutOfMemory };

    fn from(_: AllocError) -> StoreFault {
        StoreFault::OutOfMemory
    }
}

impl From<ReadFault> for StoreFault {
    ghost from_gives = { λ fault answer. answer ≡ store_fault_of fault };

    fn from(fault: ReadFault) -> StoreFault {
        match fault {
            ReadFault::Device => StoreFault::Device,
            ReadFault::OutOfMemory => StoreFault::OutOfMemory,
        }
    }
}

/// Stores the bytes that were put last: its content.
///
/// What its contracts say of these bytes holds for an honest store. That a store in memory is
/// honest is proved; for a file it is a premise.
pub trait CheckpointStore: Drop {
    /// What contracts know of it: the bytes that it holds, whether it is honest, how often its
    /// device has failed, and what it may do at one call. A store with nothing more to say lets the
    /// last always hold.
    ghost model: { StoreModel Self };

    /// Replaces the bytes that it holds.
    fn put(&mut self, bytes: &[u8]) -> Result<(), StoreFault>
        ensures { StoreDoes model self.old (Put bytes.now result) self.new };

    /// The bytes that it holds, or `None` before the first put.
    fn get(&mut self) -> Result<Option<Vec<u8>>, StoreFault>
        ensures { MatchResult result
            (λ content. StoreDoes model self.old
            (Get (option_map (λ bytes. bytes.items) content)) self.new)
            (λ fault. StoreDoes model self.old (GetFault fault) self.new) };

    /// Whether it holds exactly these bytes, as [`CheckpointStore::get`] would return them.
    fn has_content(&mut self, bytes: &[u8]) -> Result<bool, StoreFault>
        ensures { MatchResult result
            (λ same. Compares (StoreDoes model) self.old bytes.now same self.new)
            (λ fault. StoreDoes model self.old (GetFault fault) self.new) }
    {
        Ok(is_same(&self.get()?, bytes))
    }

    /// How often its device has failed, up to the greatest number that can be reported.
    fn failures(&self) -> u64
        ensures { result ≡ model.failures self.now };
}

// Whether exactly these bytes were found.
pub(crate) fn is_same(found: &Option<Vec<u8>>, bytes: &[u8]) -> bool
    ensures { ReportsSame bytes.now result (option_map (λ found. found.items) found.now) }
{
    match found {
        Some(found) => found.as_slice() == bytes,
        None => false,
    }
}
