//! A file in memory that can crash.
ghost use Rattle.std.specs.Prelude.{◌≡◌, ◌++◌, ◌+◌, ◌≤◌, [], false, length, max, take, IfOk, OnOk};

use crate::log_file::LogFile;
use sb_text::ReadFault;
use std::alloc::{AllocError, Global};
use std::io;
use std::io::ErrorKind;
use std::marker::Model;

/// A file in memory. It remembers how much of it is synced, and can lose the rest.
///
/// As on a disk, a sync that fails leaves bytes that no later sync takes there: only those up to a
/// place that it remembers too.
#[derive(Drop)]
pub struct MemoryFile {
    bytes: Vec<u8>,
    synced: usize,
    // How many bytes the next sync reaches.
    syncable: usize,
    failed: bool,
}

impl Model for MemoryFile {
    ghost use Rattle.std.specs.Prelude.{◌-◌, length, vec_capacity};
    ghost use Rattle.sb_log.specs.MemoryFile.{MemoryFileOf};

    ghost Value = { MemoryFileOf };

    ghost view = { λ f. record {
      content = f.bytes.items;
      synced = f.synced;
      syncable = f.syncable;
      failed = f.failed;
      room = vec_capacity f.bytes - length f.bytes.items;
    } };
}

impl MemoryFile {
    /// An empty file.
    pub fn new(alloc: Global) -> MemoryFile
        ensures content { result.content ≡ [] }
        ensures synced { result.synced ≡ 0 }
        ensures syncable { result.syncable ≡ 0 }
        ensures failed { result.failed ≡ false }
    {
        MemoryFile {
            bytes: Vec::new(alloc),
            synced: 0,
            syncable: 0,
            failed: false,
        }
    }

    /// Makes room for so many more bytes, so that appending them can't fail. Fails if memory is refused.
    pub fn reserve(&mut self, additional: usize) -> Result<(), AllocError>
        ensures content { self.new.content ≡ self.old.content }
        ensures synced { self.new.synced ≡ self.old.synced }
        ensures syncable { self.new.syncable ≡ self.old.syncable }
        ensures failed { self.new.failed ≡ self.old.failed }
        ensures room { OnOk result (additional ≤ self.new.room) }
    {
        self.bytes.reserve(additional)
    }

    /// Appends these bytes, for which there is room. It takes no memory.
    pub fn append_reserved(&mut self, bytes: &[u8])
        requires { length bytes.now ≤ self.old.room }
        ensures content { self.new.content ≡ self.old.content ++ bytes.now }
        ensures synced { self.new.synced ≡ self.old.synced }
        ensures syncable { length self.old.content ≤ self.old.syncable → length self.new.content ≤ self.new.syncable }
        ensures failed { self.new.failed ≡ self.old.failed }
        ensures room { self.old.room ≤ self.new.room + length bytes.now }
    {
        let before = self.bytes.len();
        self.bytes.extend_from_slice(bytes).unwrap();
        let after = self.bytes.len();
        self.reach(before, after);
    }

    /// Has all its bytes synced.
    pub fn mark_synced(&mut self)
        ensures { self.new ≡ record self.old {
          synced = length self.old.content;
          syncable = length self.old.content;
        } }
    {
        self.synced = self.bytes.len();
        self.syncable = self.bytes.len();
    }

    /// Stops the machine: so many bytes are left, but at least those that are synced. Of what is left
    /// no sync reaches any byte.
    pub fn crash(&mut self, kept: usize)
        ensures content { self.new.content ≡ take (max self.old.synced kept) self.old.content }
        ensures synced { self.new.synced ≡ self.old.synced }
        ensures syncable { self.new.syncable ≡ 0 }
        ensures failed { self.new.failed ≡ self.old.failed }
    {
        self.bytes.truncate(self.synced.max(kept));
        self.syncable = 0;
    }

    /// A file of its own with what a stop of the machine leaves of this one, as
    /// [`crash`](MemoryFile::crash) does. Fails if memory is refused.
    pub fn crashed(&self, alloc: Global, kept: usize) -> Result<MemoryFile, AllocError>
        ensures content { IfOk result (λ left. left.content ≡ take (max self.now.synced kept) self.now.content) }
        ensures synced { IfOk result (λ left. left.synced ≡ self.now.synced) }
        ensures syncable { IfOk result (λ left. left.syncable ≡ 0) }
        ensures failed { IfOk result (λ left. left.failed ≡ false) }
    {
        let left = self.synced.max(kept).min(self.bytes.len());
        Ok(MemoryFile {
            bytes: Vec::from_slice(alloc, &self.bytes[..left])?,
            synced: self.synced,
            syncable: 0,
            failed: false,
        })
    }

    /// Does what a sync that fails may do: so many of the bytes that the next sync would reach are
    /// synced, and no later one reaches any of the others.
    pub(crate) fn lose_track(&mut self, kept: usize)
        ensures content { self.new.content ≡ self.old.content }
        ensures synced { self.old.synced ≤ self.new.synced }
        ensures failed { self.new.failed ≡ self.old.failed }
    {
        let reached = self.synced.saturating_add(kept).min(self.syncable);
        self.synced = self.synced.max(reached);
        self.syncable = self.synced;
    }

    // The next sync reaches the bytes from a place up to another, if it reaches all before them.
    fn reach(&mut self, from: usize, to: usize)
        ensures file { self.new ≡ record self.old { syncable = self.new.syncable } }
        ensures syncable { self.old.syncable ≤ self.new.syncable }
        ensures reached { from ≤ self.old.syncable → to ≤ self.new.syncable }
    {
        if from <= self.syncable {
            self.syncable = self.syncable.max(to);
        }
    }

    /// Its bytes.
    pub fn bytes(&self) -> &[u8]
        ensures { result.now ≡ self.now.content }
    {
        &self.bytes
    }
}

// What it claims of its bytes is proved.
impl LogFile for MemoryFile {
    ghost use Rattle.sb_log.specs.LogFiles.{LogFileOf};

    ghost model = { λ f. record { content = f.content; synced = f.synced; syncable = f.syncable } };

    ghost IsHonest = { λ f. Unit {0} };

    ghost has_failed = { λ f. f.failed };

    fn read_at(&mut self, at: usize, most: usize, out: &mut Vec<u8>) -> Result<(), ReadFault> {
        let rest = &self.bytes[at.min(self.bytes.len())..];
        out.extend_from_slice(&rest[..most.min(rest.len())])?;
        Ok(())
    }

    // Memory that is refused counts as a failure of the device.
    fn append(&mut self, bytes: &[u8]) -> io::Result<()> {
        let before = self.bytes.len();
        if self.bytes.extend_from_slice(bytes).is_err() {
            self.failed = true;
            return Err(io::Error::from(ErrorKind::OutOfMemory));
        }
        let after = self.bytes.len();
        self.reach(before, after);
        Ok(())
    }

    fn sync(&mut self) -> io::Result<()> {
        self.synced = self.synced.max(self.syncable);
        Ok(())
    }

    fn cut(&mut self, size: usize) -> io::Result<()> {
        self.bytes.truncate(size);
        self.synced = self.synced.min(size);
        self.syncable = self.syncable.min(size);
        Ok(())
    }

    // The bytes are there.
    fn write_again(&mut self, at: usize, bytes: &[u8]) -> io::Result<()> {
        let end = at.saturating_add(bytes.len()).min(self.bytes.len());
        self.reach(at, end);
        Ok(())
    }
}
