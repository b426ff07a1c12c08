//! A log's file in a folder of the system.
ghost use Rattle.std.specs.Prelude.{◌≡◌, ◌≤◌, ◌++◌, [], ◌||◌, ℕ, Err, List, length, is_err, IfErr, IfOk, OnOk};
ghost use Rattle.sb_log.specs.LogFiles.{failed_after_read};

use crate::front::PIECE;
use crate::log_fault::LogFault;
use crate::log_file::LogFile;
use sb_text::{READS, ReadFault};
use std::alloc::Global;
use std::cell::Cell;
use std::fs::{File, OpenOptions, TryLockError};
use std::io::{ErrorKind, Read, Seek, SeekFrom, Write};
use std::path::PathBuf;
use std::{fs, io};

/// Why the system refused a call, so that an operator can be told after the file is given up.
#[derive(Drop)]
pub struct Reason {
    code: Cell<Option<i32>>,
}

impl Reason {
    /// Nothing was refused yet.
    pub fn new() -> Reason {
        Reason {
            code: Cell::new(None),
        }
    }

    /// The system's error of the last call that it refused, if it refused one and has words for it.
    pub fn error(&self) -> Option<io::Error> {
        self.code.get().map(io::Error::from_raw_os_error)
    }

    /// Notes why a call was refused.
    pub fn note(&self, error: &io::Error) {
        self.code.set(error.raw_os_error());
    }
}

/// A file of the system. It is read in pieces.
///
/// No contract of std says what a file of the system holds, so nothing is claimed of it here. Each
/// function that is proved for every honest file runs on this one, and can't tell it from others;
/// that it is honest is the premise. Each method hands its call to one call of the system.
#[derive(Drop)]
pub struct SystemFile<'a> {
    file: File,
    reason: &'a Reason,
    failed: bool,
    // Whether the next write goes behind the last byte, as after an append. A seek less for each.
    at_end: bool,
    // The piece that was read last, and where it stands.
    piece: Vec<u8>,
    piece_at: usize,
}

impl<'a> SystemFile<'a> {
    /// The file of this name in this folder, for one owner alone: it is locked as long as it is open.
    /// If there is none, it is made, empty, and durably so.
    ///
    /// Fails with
    /// - [`LogFault::InUse`] if another process has it open so,
    /// - [`LogFault::Device`] if the system refuses a call,
    /// - [`LogFault::OutOfMemory`] if memory is refused.
    pub fn open(
        rt: &HostRuntime,
        folder: &str,
        name: &str,
        reason: &'a Reason,
    ) -> Result<SystemFile<'a>, LogFault> {
        let folder = PathBuf::from_str(rt.alloc(), folder)?;
        let path = folder.join(rt.alloc(), name)?;
        let mut options = OpenOptions::new();
        options.read(true).write(true).create(true);
        match open_locked(rt, &options, &folder, &path) {
            Ok(Some(file)) => SystemFile::new(rt.alloc(), file, reason),
            Ok(None) => Err(LogFault::InUse),
            Err(error) => {
                reason.note(&error);
                Err(LogFault::Device)
            }
        }
    }

    /// The file of this name in this folder, to be read alone. It isn't locked, and has to be there.
    ///
    /// Fails as [`SystemFile::open`] does, but for a lock.
    pub fn open_to_read(
        rt: &HostRuntime,
        folder: &str,
        name: &str,
        reason: &'a Reason,
    ) -> Result<SystemFile<'a>, LogFault> {
        let path = PathBuf::from_str(rt.alloc(), folder)?.join(rt.alloc(), name)?;
        match fs::open(rt, &path) {
            Ok(file) => SystemFile::new(rt.alloc(), file, reason),
            Err(error) => {
                reason.note(&error);
                Err(LogFault::Device)
            }
        }
    }

    fn new(alloc: Global, file: File, reason: &'a Reason) -> Result<SystemFile<'a>, LogFault> {
        Ok(SystemFile {
            file,
            reason,
            failed: false,
            at_end: false,
            piece: Vec::with_capacity(alloc, PIECE)?,
            piece_at: 0,
        })
    }

    // Notes a failure of the device.
    fn noted(&mut self, done: io::Result<()>) -> io::Result<()>
        ensures answer { is_err result ≡ is_err done }
        ensures failed { self.exit.now.failed ≡ (self.entry.now.failed || is_err done) }
    {
        if let Err(error) = &done {
            self.reason.note(error);
            self.failed = true;
        }
        done
    }
}

// Opens and locks a file, which is in its folder durably then. `None` if another one has the lock.
fn open_locked(
    rt: &HostRuntime,
    options: &OpenOptions,
    folder: &PathBuf,
    path: &PathBuf,
) -> io::Result<Option<File>> {
    let file = options.open(rt, path)?;
    match file.try_lock() {
        Ok(()) => {}
        Err(TryLockError::WouldBlock) => return Ok(None),
        Err(TryLockError::Error(error)) => return Err(error),
    }
    fs::open(rt, folder)?.sync_all()?;
    Ok(Some(file))
}

// What one read gives. An interrupted read is repeated.
fn read_some(file: &mut File, chunk: &mut [u8]) -> io::Result<usize>
    ensures { IfOk result (λ count. count ≤ length chunk.new) }
{
    for _ in 0..READS {
        match file.read(chunk) {
            Err(error) if error.kind() == ErrorKind::Interrupted => {}
            done => return done,
        }
    }
    Err(io::Error::from(ErrorKind::Interrupted))
}

impl<'a> SystemFile<'a> {
    // Has the bytes from a place on in the piece, as far as one read gives them.
    fn fill(&mut self, at: usize) -> io::Result<()>
        ensures { self.exit.now.failed ≡ self.entry.now.failed }
    {
        if at >= self.piece_at && at - self.piece_at < self.piece.len() {
            return Ok(());
        }
        self.piece.clear();
        self.at_end = false;
        self.file.seek(SeekFrom::Start(at as u64))?;
        let mut chunk = [0u8; PIECE];
        let count = read_some(&mut self.file, &mut chunk)?;
        self.piece_at = at;
        if self.piece.extend_from_slice(&chunk[..count]).is_err() {
            return Err(io::Error::from(ErrorKind::OutOfMemory));
        }
        Ok(())
    }

    // Writes these bytes at a place.
    fn write_at(&mut self, at: usize, bytes: &[u8]) -> io::Result<()>
        ensures { self.exit.now.failed ≡ self.entry.now.failed }
    {
        self.at_end = false;
        self.file.seek(SeekFrom::Start(at as u64))?;
        self.file.write_all(bytes)
    }

    // Writes these bytes behind the last one.
    fn write_last(&mut self, bytes: &[u8]) -> io::Result<()>
        ensures { self.exit.now.failed ≡ self.entry.now.failed }
    {
        if !self.at_end {
            self.file.seek(SeekFrom::End(0))?;
            self.at_end = true;
        }
        self.file.write_all(bytes)
    }

    // Appends what the piece has from a place on, at most so many bytes, and answers how many.
    fn push_piece(&mut self, at: usize, most: usize, out: &mut Vec<u8>) -> Result<usize, ReadFault>
        ensures bytes { IfOk result (λ count. (bytes : List ℕ) × (length bytes ≡ count) × (count ≤ most)
            × (out.new.items ≡ out.old.items ++ bytes)) }
        ensures ok { OnOk result (self.exit.now.failed ≡ self.entry.now.failed) }
        ensures fault { IfErr result (λ fault.
            self.exit.now.failed ≡ failed_after_read self.entry.now.failed (Err fault)) }
    {
        let filled = self.fill(at);
        if self.noted(filled).is_err() {
            return Err(ReadFault::Device);
        }
        let skipped = at.saturating_sub(self.piece_at).min(self.piece.len());
        let found = &self.piece[skipped..];
        let count = found.len().min(most);
        out.extend_from_slice(&found[..count])?;
        Ok(count)
    }
}

impl<'a> LogFile for SystemFile<'a> {
    ghost use Rattle.sb_log.specs.LogFiles.{LogFileOf};

    ghost model = { λ file. record { content = []; synced = 0; syncable = 0 } };

    // No contract says what a file holds, so nothing is claimed of it.
    ghost IsHonest = { λ file. ⊥ };

    ghost has_failed = { λ file. file.failed };

    fn read_at(&mut self, at: usize, most: usize, out: &mut Vec<u8>) -> Result<(), ReadFault> {
        let mut done = 0;
        while done < most {
            let count = self.push_piece(at.saturating_add(done), most - done, out)?;
            if count == 0 {
                return Ok(());
            }
            done += count;
        }
        Ok(())
    }

    fn append(&mut self, bytes: &[u8]) -> io::Result<()> {
        let done = self.write_last(bytes);
        self.piece.clear();
        self.noted(done)
    }

    fn sync(&mut self) -> io::Result<()> {
        let done = self.file.sync_data();
        self.noted(done)
    }

    fn cut(&mut self, size: usize) -> io::Result<()> {
        self.at_end = false;
        let done = self.file.set_len(size as u64);
        self.piece.clear();
        self.noted(done)
    }

    fn write_again(&mut self, at: usize, bytes: &[u8]) -> io::Result<()> {
        let done = self.write_at(at, bytes);
        self.noted(done)
    }
}
