//! A store whose device fails at one call, for tests.
ghost use Rattle.std.specs.Prelude.{◌≡◌, ◌-◌};
ghost use Rattle.sb_checkpoint.specs.FaultyStore.{faulty_model};
ghost use Rattle.sb_checkpoint.specs.Stores.{saturating_increment};
ghost use Rattle.sb_checkpoint.specs.declared.store.StoreFault.TheVariants.{Device};

use crate::memory_store::MemoryStore;
use crate::store::{CheckpointStore, StoreFault};
use std::marker::Model;

/// Which bytes are left by a put at which the device fails.
#[derive(Clone, Copy, Debug, PartialEq, Eq)]
pub enum Version {
    /// The bytes from before the put.
    Old,
    /// The bytes of the put.
    New,
}

/// A store in memory whose device fails at one call. Every other call acts on the store in memory.
///
/// Puts and gets are counted together. A call that is refused memory changes nothing, and isn't
/// counted.
#[derive(Drop)]
pub struct FaultyStore {
    inner: MemoryStore,
    at: u64,
    leaves: Version,
}

impl Model for FaultyStore {
    ghost use Rattle.sb_checkpoint.specs.FaultyStore.{FaultyStoreOf};

    ghost Value = { FaultyStoreOf };

    ghost view = { λ s. record {
      inner = s.inner;
      at = s.at;
      leaves = s.leaves;
    } };
}

impl FaultyStore {
    /// A store over this one, whose device fails at call number `at`, counted from 1, or never if
    /// `at` is 0. If that call is a put, it leaves this version of the bytes.
    pub fn new(inner: MemoryStore, at: u64, leaves: Version) -> FaultyStore
        ensures { result ≡ record { inner = inner; at = at; leaves = leaves } }
    {
        FaultyStore { inner, at, leaves }
    }

    /// The store in memory.
    pub fn inner(&self) -> &MemoryStore
        ensures { result.now ≡ self.now.inner }
    {
        &self.inner
    }

    // Counts one more call.
    fn count(&mut self)
        ensures { self.new ≡ record self.old { at = self.old.at - 1 } }
    {
        self.at = self.at.saturating_sub(1);
    }

    // Counts the failure of the device at this call.
    fn count_failed_call(&mut self) -> StoreFault
        ensures fault { result ≡ Device }
        ensures state { self.new ≡ record self.old {
          inner = record self.old.inner { failures = saturating_increment self.old.inner.failures };
          at = self.old.at - 1;
        } }
    {
        self.count();
        self.inner.count_failure()
    }
}

impl CheckpointStore for FaultyStore {
    ghost model = { faulty_model };

    fn put(&mut self, bytes: &[u8]) -> Result<(), StoreFault> {
        if self.at == 1 {
            if self.leaves == Version::New {
                self.inner.set_content(bytes)?;
            }
            return Err(self.count_failed_call());
        }
        let done = self.inner.put(bytes);
        match done {
            Err(StoreFault::OutOfMemory) => {}
            _ => self.count(),
        }
        done
    }

    fn get(&mut self) -> Result<Option<Vec<u8>>, StoreFault> {
        if self.at == 1 {
            return Err(self.count_failed_call());
        }
        let content = self.inner.get()?;
        self.count();
        Ok(content)
    }

    fn failures(&self) -> u64 {
        self.inner.failures()
    }
}
