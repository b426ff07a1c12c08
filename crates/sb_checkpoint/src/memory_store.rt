//! A store in memory, whose puts end as planned.
ghost use Rattle.std.specs.Prelude.{◌≡◌, None, Some, MatchResult};
ghost use Rattle.sb_checkpoint.specs.MemoryStore.{memory_model};
ghost use Rattle.sb_checkpoint.specs.Stores.{saturating_increment};

use crate::store::{CheckpointStore, StoreFault};
use std::alloc::Global;
use std::marker::Model;
use std::mem;

/// How a put ends.
#[derive(Clone, Copy, Debug, PartialEq, Eq)]
pub enum How {
    /// It succeeds: the bytes are the content.
    Ok,
    /// The device fails, and the old bytes stay.
    Old,
    /// The device fails, but the new bytes are the content.
    New,
}

/// Holds a checkpoint in memory. Each put succeeds unless planned otherwise.
#[derive(Drop)]
pub struct MemoryStore {
    alloc: Global,
    bytes: Option<Vec<u8>>,
    next: How,
    failures: u64,
}

impl Model for MemoryStore {
    ghost use Rattle.sb_checkpoint.specs.MemoryStore.{MemoryStoreOf};
    ghost use Rattle.std.specs.Prelude.{option_map};

    ghost Value = { MemoryStoreOf };

    ghost view = { λ s. record {
      slot = option_map (λ bytes. bytes.items) s.bytes;
      next = s.next;
      failures = s.failures;
    } };
}

impl MemoryStore {
    /// A store that holds nothing yet.
    pub fn new(alloc: Global) -> MemoryStore
        ensures { result ≡ record { slot = None; next = How.Ok; failures = 0 } }
    {
        MemoryStore {
            alloc,
            bytes: None,
            next: How::Ok,
            failures: 0,
        }
    }

    /// Plans how the next put ends. Those after it succeed.
    pub fn tell(&mut self, how: How)
        ensures { self.new ≡ record self.old { next = how } }
    {
        self.next = how;
    }

    // Makes a copy of these bytes the content.
    pub(crate) fn set_content(&mut self, bytes: &[u8]) -> Result<(), StoreFault>
        ensures { MatchResult result
            (λ done. self.new ≡ record self.old { slot = Some bytes.now })
            (λ fault. (fault ≡ StoreFault.OutOfMemory) × (self.new ≡ self.old)) }
    {
        self.bytes = Some(Vec::from_slice(self.alloc, bytes)?);
        Ok(())
    }

    // Counts one more failure of the device.
    pub(crate) fn count_failure(&mut self) -> StoreFault
        ensures fault { result ≡ StoreFault.Device }
        ensures state { self.new ≡ record self.old { failures = saturating_increment self.old.failures } }
    {
        self.failures = self.failures.saturating_add(1);
        StoreFault::Device
    }
}

// Its model describes all that it does, so it is honest.
impl CheckpointStore for MemoryStore {
    ghost model = { memory_model };

    fn put(&mut self, bytes: &[u8]) -> Result<(), StoreFault> {
        let copy = Vec::from_slice(self.alloc, bytes)?;
        let how = mem::replace(&mut self.next, How::Ok);
        match how {
            How::Ok => {
                self.bytes = Some(copy);
                Ok(())
            }
            How::Old => Err(self.count_failure()),
            How::New => {
                self.bytes = Some(copy);
                Err(self.count_failure())
            }
        }
    }

    fn get(&mut self) -> Result<Option<Vec<u8>>, StoreFault> {
        match &self.bytes {
            Some(bytes) => Ok(Some(Vec::from_slice(self.alloc, bytes)?)),
            None => Ok(None),
        }
    }

    fn failures(&self) -> u64 {
        self.failures
    }
}
