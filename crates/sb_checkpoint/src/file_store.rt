//! A store in a file.
ghost use Rattle.std.specs.Prelude.{◌≡◌, None, OnOk, MatchResult};
ghost use Rattle.sb_checkpoint.specs.FileStore.{FileActs};
ghost use Rattle.sb_checkpoint.specs.Stores.{saturating_increment};
ghost use Rattle.sb_checkpoint.specs.declared.store.StoreFault.TheVariants.{Device};

use crate::file_with_spare::FileWithSpare;
use crate::store::{CheckpointStore, StoreFault};
use std::marker::Model;

/// Holds a checkpoint in a file, which each put replaces as a whole.
///
/// It is honest if its file is: after a put that fails, the file holds wholly the old or wholly the
/// new bytes.
#[derive(Drop)]
pub struct FileStore<P: FileWithSpare> {
    file: P,
    failures: u64,
}

impl<P: FileWithSpare> Model for FileStore<P> {
    ghost use Rattle.sb_checkpoint.specs.FileStore.{FileStoreOf};

    ghost Value = { FileStoreOf P };

    ghost view = { λ s. record {
      file = s.file;
      failures = s.failures;
    } };
}

impl<P: FileWithSpare> FileStore<P> {
    /// A store in this file. Its device hasn't failed yet. The file isn't touched.
    pub fn new(file: P) -> FileStore<P>
        ensures { result ≡ record { file = file; failures = 0 } }
    {
        FileStore { file, failures: 0 }
    }

    /// Tests whether a put is possible: writes an empty spare and removes it. The checkpoint stays
    /// as it is.
    ///
    /// Fails with `Device`, which counts like any other failure, if the folder isn't there, or if
    /// no file can be made, synced and removed in it. Memory is never refused.
    pub fn probe(&mut self) -> Result<(), StoreFault>
        ensures honest { P.IsHonest self.old.file → P.IsHonest self.new.file }
        ensures unchanged { P.IsHonest self.old.file → P.content self.new.file ≡ P.content self.old.file }
        ensures no_spare { P.IsHonest self.old.file → OnOk result (P.spare self.new.file ≡ None) }
        ensures failures { MatchResult result
            (λ done. self.new.failures ≡ self.old.failures)
            (λ fault. (fault ≡ Device) × (self.new.failures ≡ saturating_increment self.old.failures)) }
    {
        let written = self.file.write_spare(&[]);
        let removed = self.file.remove_spare();
        if written.is_err() || removed.is_err() {
            return Err(self.count_failure());
        }
        Ok(())
    }

    // Counts one more failure of the device.
    fn count_failure(&mut self) -> StoreFault
        ensures fault { result ≡ Device }
        ensures state { self.new ≡ record self.old { failures = saturating_increment self.old.failures } }
    {
        self.failures = self.failures.saturating_add(1);
        StoreFault::Device
    }
}

impl<P: FileWithSpare> CheckpointStore for FileStore<P> {
    ghost model = { record {
      slot = λ store. P.content store.file;
      IsHonest = λ store. P.IsHonest store.file;
      failures = λ store. store.failures;
      acts = FileActs P.IsHonest P.spare;
    } };

    fn put(&mut self, bytes: &[u8]) -> Result<(), StoreFault> {
        if self.file.write_spare(bytes).is_ok() && self.file.place_spare().is_ok() {
            return Ok(());
        }
        // The spare may be missing, or may refuse to go. The put has failed either way.
        let _ = self.file.remove_spare();
        Err(self.count_failure())
    }

    fn get(&mut self) -> Result<Option<Vec<u8>>, StoreFault> {
        match self.file.read() {
            Ok(found) => Ok(found),
            Err(StoreFault::Device) => Err(self.count_failure()),
            Err(StoreFault::OutOfMemory) => Err(StoreFault::OutOfMemory),
        }
    }

    // A file that is compared piece by piece needn't be read whole.
    fn has_content(&mut self, bytes: &[u8]) -> Result<bool, StoreFault> {
        let answer = self.file.has_content(bytes);
        if let Err(StoreFault::Device) = answer {
            return Err(self.count_failure());
        }
        answer
    }

    fn failures(&self) -> u64 {
        self.failures
    }
}
