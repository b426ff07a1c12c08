//! A log of records in a file.
ghost use Rattle.std.specs.Prelude.{◌≡◌, ◌⊎◌, ◌↔◌, ◌≤◌, ◌++◌, List, ℕ, drop, false, length, true, IfErr, OnOk};
ghost use Rattle.sha2.specs.Hashers.{Holds256};
ghost use Rattle.sha2.specs.Sha256.{sha256};
ghost use Rattle.sb_log.specs.Lives.{Life};
ghost use Rattle.sb_log.specs.LogCalls.{DoesAppend, IsLogOf, DoesSync};
ghost use Rattle.sb_log.specs.Records.{IsBody};
ghost use Rattle.sb_log.specs.declared.log_fault.LogFault.TheVariants.{Device};

use crate::log_fault::LogFault;
use crate::log_file::LogFile;
use crate::record::{HEAD, digest_of, with_body, write_head};
use sha2::Sha256;
use std::marker::Model;

/// A log of records in a file. After a failure it takes no more, and its file has to be recovered.
///
/// Contracts see the file, the hasher of all bodies, and whether a call failed.
#[derive(Drop)]
pub struct DurableLog<F: LogFile> {
    file: F,
    hasher: Sha256,
    failed: bool,
}

impl<F: LogFile> Model for DurableLog<F> {
    ghost use Rattle.sb_log.specs.LogCalls.{DurableLogOf};

    ghost Value = { DurableLogOf F };

    ghost view = { λ log. record {
      file = log.file;
      hasher = log.hasher;
      failed = log.failed;
    } };
}

impl<F: LogFile> DurableLog<F> {
    /// The log in this file, which was recovered, with the hasher of its bodies.
    pub fn new(file: F, hasher: Sha256) -> DurableLog<F>
        ensures { result ≡ record { file = file; hasher = hasher; failed = false } }
    {
        DurableLog {
            file,
            hasher,
            failed: false,
        }
    }

    /// The file.
    pub fn file(&self) -> &F
        ensures { result.now ≡ self.now.file }
    {
        &self.file
    }

    /// The file. The log is given up.
    pub fn into_file(self) -> F
        ensures { result ≡ self.file }
    {
        let DurableLog { file, .. } = self;
        file
    }

    /// The hasher of the bytes of all bodies.
    pub fn hasher(&self) -> &Sha256
        ensures { result.now ≡ self.now.hasher }
    {
        &self.hasher
    }

    /// The digest of the bytes of all bodies.
    pub fn digest(&self) -> [u8; 32]
        ensures { (bodies : List ℕ) → Holds256 self.now.hasher bodies → result ≡ sha256 bodies }
    {
        digest_of(&self.hasher)
    }

    /// Appends a record. The buffer has room for its head, and then its body; the head is written
    /// here. Until a sync the record may be lost.
    ///
    /// Fails with [`LogFault::Device`] if the device fails, or failed before: then the file has to be
    /// recovered.
    pub fn append(&mut self, buffer: &mut [u8]) -> Result<(), LogFault>
        requires head { HEAD ≤ length buffer.old }
        requires body { IsBody (drop HEAD buffer.old) }
        ensures honest { F.IsHonest self.old.file ↔ F.IsHonest self.new.file }
        ensures life { F.IsHonest self.old.file → (l : Life)
            → IsLogOf (F.model self.old.file) self.old.failed self.old.hasher l
            → (m : Life) × DoesAppend l (drop HEAD buffer.old) result m
            × IsLogOf (F.model self.new.file) self.new.failed self.new.hasher m }
        ensures body { drop HEAD buffer.new ≡ drop HEAD buffer.old }
        ensures hasher { OnOk result ((bodies : List ℕ) → Holds256 self.old.hasher bodies
            → Holds256 self.new.hasher (bodies ++ drop HEAD buffer.old)) }
        ensures ok { OnOk result ((self.old.failed ≡ false) × (self.new.failed ≡ false)) }
        ensures failed { IfErr result (λ fault. (fault ≡ Device) × (self.new.failed ≡ true)
            × ((self.old.failed ≡ true) ⊎ (F.has_failed self.new.file ≡ true))) }
    {
        if self.failed {
            return Err(LogFault::Device);
        }
        let longer = with_body(&self.hasher, &buffer[HEAD..]);
        write_head(buffer, &longer);
        match self.file.append(buffer) {
            Ok(()) => {
                self.hasher = longer;
                Ok(())
            }
            Err(_) => {
                self.failed = true;
                Err(LogFault::Device)
            }
        }
    }

    /// Waits until all that was appended is on the disk. Then it may be told.
    ///
    /// Fails with [`LogFault::Device`] if the device fails, or failed before: then the file has to be
    /// recovered. A sync that is tried again could answer Ok for bytes that are gone.
    pub fn sync(&mut self) -> Result<(), LogFault>
        ensures honest { F.IsHonest self.old.file ↔ F.IsHonest self.new.file }
        ensures life { F.IsHonest self.old.file → (l : Life)
            → IsLogOf (F.model self.old.file) self.old.failed self.old.hasher l
            → (m : Life) × DoesSync l result m
            × IsLogOf (F.model self.new.file) self.new.failed self.new.hasher m }
        ensures hasher { self.new.hasher ≡ self.old.hasher }
        ensures ok { OnOk result ((self.old.failed ≡ false) × (self.new.failed ≡ false)) }
        ensures failed { IfErr result (λ fault. (fault ≡ Device) × (self.new.failed ≡ true)
            × ((self.old.failed ≡ true) ⊎ (F.has_failed self.new.file ≡ true))) }
    {
        if self.failed {
            return Err(LogFault::Device);
        }
        match self.file.sync() {
            Ok(()) => Ok(()),
            Err(_) => {
                self.failed = true;
                Err(LogFault::Device)
            }
        }
    }
}
