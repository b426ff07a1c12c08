//! Where what is cut off a log is kept.
ghost use Rattle.std.specs.Prelude.{◌≡◌, ◌≤◌, ℕ, List, Option, None, length, IfOk, OnOk};

use sb_log::Reason;
use std::fs::{File, OpenOptions};
use std::io::Write;
use std::path::PathBuf;
use std::{fs, io};

/// The file name of what was cut off a log.
pub const REST: &str = "log.rest";

/// A file for what is cut off a log.
pub trait RestFile: Write {
    /// What a crash leaves of it, if that is known.
    ghost kept: { Self → Option (List ℕ) };

    /// Waits until all its bytes are on the disk, and its name too.
    fn sync(&mut self) -> io::Result<()>
        ensures contents { Self.contents self.new ≡ Self.contents self.old }
        ensures kept { OnOk result (Self.kept self.new ≡ Self.contents self.old) };
}

/// A new file for what is cut off a log, beside the log. It is made as the first bytes are written, and one that is
/// there already isn't touched: writing fails then. An error of the system is noted.
#[derive(Drop)]
pub struct SystemRest<'a> {
    rt: HostRuntime,
    folder: &'a str,
    reason: &'a Reason,
    file: Option<File>,
}

impl<'a> SystemRest<'a> {
    /// A file in this folder, which isn't made yet.
    pub fn new(rt: &HostRuntime, folder: &'a str, reason: &'a Reason) -> SystemRest<'a> {
        SystemRest {
            rt: *rt,
            folder,
            reason,
            file: None,
        }
    }

    // Makes the file.
    fn make(&self) -> io::Result<File> {
        let folder = PathBuf::from_str(self.rt.alloc(), self.folder)?;
        let path = folder.join(self.rt.alloc(), REST)?;
        let mut options = OpenOptions::new();
        options.write(true).create_new(true);
        options.open(&self.rt, &path)
    }

    // Writes to the file, which is made if it isn't there.
    fn write_made(&mut self, buf: &[u8]) -> io::Result<usize>
        ensures { IfOk result (λ count. count ≤ length buf.now) }
    {
        if self.file.is_none() {
            self.file = Some(self.make()?);
        }
        match &mut self.file {
            Some(file) => file.write(buf),
            None => Ok(0),
        }
    }

    // Syncs the file and its folder.
    fn sync_made(&self) -> io::Result<()> {
        if let Some(file) = &self.file {
            file.sync_all()?;
            fs::open(&self.rt, self.folder)?.sync_all()?;
        }
        Ok(())
    }

    // What was done. If that failed, the error is noted.
    fn with_reason<V>(&self, done: io::Result<V>) -> io::Result<V>
        ensures { result ≡ done }
    {
        if let Err(error) = &done {
            self.reason.note(error);
        }
        done
    }
}

impl Write for SystemRest<'_> {
    fn write(&mut self, buf: &[u8]) -> io::Result<usize> {
        let done = self.write_made(buf);
        self.with_reason(done)
    }

    fn flush(&mut self) -> io::Result<()> {
        Ok(())
    }
}

impl RestFile for SystemRest<'_> {
    // No contract says what a file of the system holds, so nothing is claimed of it.
    ghost kept = { λ rest. None };

    fn sync(&mut self) -> io::Result<()> {
        let done = self.sync_made();
        self.with_reason(done)
    }
}
