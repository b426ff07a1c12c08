//! A file whose device fails at one call, for tests.
ghost use Rattle.std.specs.Prelude.{◌≡◌, ◌-◌, ◌==◌, ◌||◌, false, IsErr};

use crate::log_file::LogFile;
use crate::memory_file::MemoryFile;
use sb_text::ReadFault;
use std::io;
use std::io::ErrorKind;
use std::marker::Model;

/// A file in memory whose device fails at one call. Every other call acts on the file in memory.
///
/// Reads, appends, syncs, cuts and repeated writes are counted together. After a sync that failed, no
/// later one reaches what that one left, as on a disk.
#[derive(Drop)]
pub struct FaultyFile {
    inner: MemoryFile,
    at: u64,
    kept: usize,
    failed: bool,
}

impl Model for FaultyFile {
    ghost use Rattle.sb_log.specs.FaultyFile.{FaultyFileOf};

    ghost Value = { FaultyFileOf };

    ghost view = { λ f. record {
      inner = f.inner;
      at = f.at;
      kept = f.kept;
      failed = f.failed;
    } };
}

impl FaultyFile {
    /// A file over this one, whose device fails at call number `at`, counted from 1, or never if `at`
    /// is 0. If that call is an append, it leaves at most `kept` of its bytes; if it is a sync, at most
    /// `kept` of the bytes that weren't synced are; if it is a cut, that happens if `kept` isn't 0.
    pub fn new(inner: MemoryFile, at: u64, kept: usize) -> FaultyFile
        ensures { result ≡ record { inner = inner; at = at; kept = kept; failed = false } }
    {
        FaultyFile {
            inner,
            at,
            kept,
            failed: false,
        }
    }

    /// The file in memory.
    pub fn into_inner(self) -> MemoryFile
        ensures { result ≡ self.inner }
    {
        let FaultyFile { inner, .. } = self;
        inner
    }

    // Counts one more call, and answers whether the device fails at it.
    fn fails(&mut self) -> bool
        ensures fails { result ≡ (self.old.at == 1) }
        ensures state { self.new ≡ record self.old { at = self.old.at - 1; failed = self.old.failed || result } }
    {
        let fails = self.at == 1;
        self.at = self.at.saturating_sub(1);
        self.failed = self.failed || fails;
        fails
    }
}

fn failure<T: Drop>() -> io::Result<T>
    ensures { IsErr result }
{
    Err(io::Error::from(ErrorKind::Other))
}

impl LogFile for FaultyFile {
    ghost use Rattle.sb_log.specs.LogFiles.{LogFileOf};

    ghost model = { λ f. record {
      content = f.inner.content;
      synced = f.inner.synced;
      syncable = f.inner.syncable;
    } };

    ghost IsHonest = { λ f. Unit {0} };

    ghost has_failed = { λ f. f.failed || f.inner.failed };

    fn read_at(&mut self, at: usize, most: usize, out: &mut Vec<u8>) -> Result<(), ReadFault> {
        if self.fails() {
            return Err(ReadFault::Device);
        }
        self.inner.read_at(at, most, out)
    }

    fn append(&mut self, bytes: &[u8]) -> io::Result<()> {
        if self.fails() {
            let kept = self.kept.min(bytes.len());
            self.inner.append(&bytes[..kept])?;
            return failure();
        }
        self.inner.append(bytes)
    }

    fn sync(&mut self) -> io::Result<()> {
        if self.fails() {
            self.inner.lose_track(self.kept);
            return failure();
        }
        self.inner.sync()
    }

    fn cut(&mut self, size: usize) -> io::Result<()> {
        if self.fails() {
            if self.kept > 0 {
                self.inner.cut(size)?;
            }
            return failure();
        }
        self.inner.cut(size)
    }

    fn write_again(&mut self, at: usize, bytes: &[u8]) -> io::Result<()> {
        if self.fails() {
            return failure();
        }
        self.inner.write_again(at, bytes)
    }
}
