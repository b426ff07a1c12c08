//! The file system, with one call that can be made to fail.
use std::cell::Cell;
use std::fs::{Files, Metadata, OpenFile, OpenOptions};
use std::io::{ErrorKind, Read, Seek, SeekFrom, Write};
use std::rc::Rc;
use std::{fs, io};

// A call that fails.
#[derive(Clone, Copy, PartialEq)]
pub(super) enum Call {
    None,
    Create,
    Write,
    Sync,
    OpenFolder,
    Rename,
    SyncFolder,
    Remove,
    Open,
    Read,
}

/// The system's files. Each read and each write moves up to three bytes, after one that was
/// interrupted.
#[derive(Drop)]
pub(super) struct Failing {
    pub rt: HostRuntime,
    pub call: Rc<Cell<Call>>,
}

#[derive(Drop)]
pub(super) struct FailingFile {
    file: fs::File,
    call: Rc<Cell<Call>>,
    has_moved: bool,
    interrupted: bool,
    is_written: bool,
}

// Fails if this is the call that has to fail.
fn unless(failing: &Cell<Call>, call: Call) -> io::Result<()> {
    if failing.get() == call {
        return Err(io::Error::from(ErrorKind::PermissionDenied));
    }
    Ok(())
}

impl FailingFile {
    // Every other read or write is interrupted, and one fails in mid-stream.
    fn turn(&mut self, call: Call) -> io::Result<()> {
        self.interrupted = !self.interrupted;
        if self.interrupted {
            return Err(io::Error::from(ErrorKind::Interrupted));
        }
        if self.has_moved {
            unless(&self.call, call)?;
        }
        self.has_moved = true;
        Ok(())
    }
}

impl Read for FailingFile {
    fn read(&mut self, buf: &mut [u8]) -> io::Result<usize> {
        self.turn(Call::Read)?;
        let count = buf.len().min(3);
        self.file.read(&mut buf[..count])
    }
}

impl Write for FailingFile {
    fn write(&mut self, buf: &[u8]) -> io::Result<usize> {
        self.turn(Call::Write)?;
        self.file.write(&buf[..buf.len().min(3)])
    }

    fn flush(&mut self) -> io::Result<()> {
        self.file.flush()
    }
}

impl Seek for FailingFile {
    fn seek(&mut self, to: SeekFrom) -> io::Result<u64> {
        self.file.seek(to)
    }
}

impl OpenFile for FailingFile {
    fn metadata(&self) -> io::Result<Metadata> {
        self.file.metadata()
    }

    fn set_len(&self, size: u64) -> io::Result<()> {
        self.file.set_len(size)
    }

    fn sync_all(&self) -> io::Result<()> {
        let call = if self.is_written {
            Call::Sync
        } else {
            Call::SyncFolder
        };
        unless(&self.call, call)?;
        self.file.sync_all()
    }

    fn sync_data(&self) -> io::Result<()> {
        self.file.sync_data()
    }
}

impl Files for Failing {
    type File = FailingFile;

    type Dir = <HostRuntime as Files>::Dir;

    fn open_file(&self, how: &OpenOptions, path: &str) -> io::Result<FailingFile> {
        let call = if how.asks_create() {
            Call::Create
        } else if path.ends_with(".ckpt") {
            Call::Open
        } else {
            Call::OpenFolder
        };
        unless(&self.call, call)?;
        Ok(FailingFile {
            file: how.open(&self.rt, path)?,
            call: self.call.clone()?,
            has_moved: false,
            interrupted: false,
            is_written: how.asks_write(),
        })
    }

    fn open_dir(&self, path: &str) -> io::Result<Self::Dir> {
        self.rt.open_dir(path)
    }

    fn metadata(&self, path: &str) -> io::Result<Metadata> {
        self.rt.metadata(path)
    }

    fn symlink_metadata(&self, path: &str) -> io::Result<Metadata> {
        self.rt.symlink_metadata(path)
    }

    fn copy(&self, from: &str, to: &str) -> io::Result<u64> {
        self.rt.copy(from, to)
    }

    fn rename(&self, from: &str, to: &str) -> io::Result<()> {
        unless(&self.call, Call::Rename)?;
        self.rt.rename(from, to)
    }

    fn remove_file(&self, path: &str) -> io::Result<()> {
        unless(&self.call, Call::Remove)?;
        self.rt.remove_file(path)
    }

    fn create_dir(&self, path: &str) -> io::Result<()> {
        self.rt.create_dir(path)
    }

    fn remove_dir(&self, path: &str) -> io::Result<()> {
        self.rt.remove_dir(path)
    }

    fn remove_dir_all<B: std::alloc::Allocator>(&self, alloc: B, path: &str) -> io::Result<()> {
        self.rt.remove_dir_all(alloc, path)
    }
}
