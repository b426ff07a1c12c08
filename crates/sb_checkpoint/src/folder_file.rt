//! A file in a folder of the system.
ghost use Rattle.std.specs.Prelude.{◌≡◌, ◌↔◌, ◌++◌, None, IfOk, IfSome, IsTrue, OnOk};
ghost use Rattle.std.specs.Io.KnownBytes.{Appends};
ghost use Rattle.std.specs.Path.{path_buf_bytes};
ghost use Rattle.sb_checkpoint.specs.FolderFile.{file_in, spare_ending};

use crate::file_with_spare::FileWithSpare;
use crate::store::StoreFault;
use sb_text::{READS, read_with_room};
use std::alloc::{AllocError, Global};
use std::fs::{Files, OpenFile};
use std::io::{ErrorKind, Read, Write};
use std::marker::Model;
use std::path::PathBuf;
use std::{fs, io};

// The number of bytes to compare at once.
const CHUNK: usize = 65_536;

/// A file in a folder. Its spare exists only during a put or a probe, under the file's name with
/// `.tmp` appended.
///
/// Nothing is promised about what the two hold. That is up to the system, and no contract describes
/// its files.
#[derive(Drop)]
pub struct FolderFile<F: Files + Drop> {
    alloc: Global,
    files: F,
    folder: PathBuf,
    path: PathBuf,
    spare: PathBuf,
}

impl<F: Files + Drop> Model for FolderFile<F> {
    ghost use Rattle.std.specs.Path.{path_buf_bytes};
    ghost use Rattle.sb_checkpoint.specs.FolderFile.{FolderFileOf};

    ghost Value = { FolderFileOf F };

    ghost view = { λ f. record {
      files = f.files;
      folder = path_buf_bytes f.folder;
      path = path_buf_bytes f.path;
      spare = path_buf_bytes f.spare;
    } };
}

impl<F: Files + Drop> FolderFile<F> {
    /// The file of this name in this folder. Nothing is touched. Fails if memory is refused.
    pub fn new(
        alloc: Global,
        files: F,
        folder: &str,
        name: &str,
    ) -> Result<FolderFile<F>, AllocError>
        ensures { IfOk result (λ file. file ≡ file_in files folder.now name.now) }
    {
        let folder = PathBuf::from_str(alloc, folder)?;
        let path = folder.join(alloc, name)?;
        let spare = spare_of(alloc, &path)?;
        Ok(FolderFile {
            alloc,
            files,
            folder,
            path,
            spare,
        })
    }
}

// The path of a file's spare.
fn spare_of(alloc: Global, path: &PathBuf) -> Result<PathBuf, AllocError>
    ensures { IfOk result (λ spare. path_buf_bytes spare ≡ path_buf_bytes path.now ++ spare_ending) }
{
    let mut spare = String::from_str(alloc, path.as_str())?;
    spare.push_str(".tmp")?;
    Ok(PathBuf::from(spare))
}

// Appends these bytes, and syncs them. An interrupted write is repeated.
fn write_synced<W: Write + OpenFile>(file: &mut W, bytes: &[u8]) -> io::Result<()>
    ensures { OnOk result (Appends (W.contents file.old) (W.contents file.new) bytes.now) }
{
    file.write_all(bytes)?;
    file.sync_all()
}

// What is answered if a file can't be opened: this if there is none, else a fault.
fn missing<T: Drop>(error: io::Error, none: T) -> Result<T, StoreFault> {
    if error.kind() == ErrorKind::NotFound {
        Ok(none)
    } else {
        Err(StoreFault::Device)
    }
}

// The length of a file, or 0 if it is unknown. Then room is made as the bytes come.
fn length_of<F: OpenFile>(file: &F) -> usize {
    match file.metadata() {
        Ok(metadata) => metadata.len() as usize,
        Err(_) => 0,
    }
}

// Whether a reader gives exactly these bytes. An interrupted read is repeated, and counts as one.
fn reads_exactly<R: Read>(reader: &mut R, bytes: &[u8]) -> Result<bool, StoreFault>
    ensures { IfOk result (λ same. IfSome (R.remaining reader.old) (λ content. IsTrue same ↔ (content ≡ bytes.now))) }
{
    let mut rest = bytes;
    let mut chunk = [0u8; CHUNK];
    for _ in 0..READS {
        match reader.read(&mut chunk) {
            Ok(0) => return Ok(rest.is_empty()),
            Ok(count) => match rest.strip_prefix(&chunk[..count]) {
                Some(after) => rest = after,
                None => return Ok(false),
            },
            Err(error) => {
                if error.kind() != ErrorKind::Interrupted {
                    return Err(StoreFault::Device);
                }
            }
        }
    }
    Err(StoreFault::Device)
}

impl<F: Files + Drop> FileWithSpare for FolderFile<F> {
    ghost content = { λ file. None };

    ghost spare = { λ file. None };

    // No contract says what a file holds, so nothing is claimed of it.
    ghost IsHonest = { λ file. ⊥ };

    fn write_spare(&mut self, bytes: &[u8]) -> io::Result<()> {
        let mut spare = fs::create(&self.files, &self.spare)?;
        write_synced(&mut spare, bytes)
    }

    // The folder is opened first, so that the file stays as it is if that fails.
    fn place_spare(&mut self) -> io::Result<()> {
        let folder = fs::open(&self.files, &self.folder)?;
        fs::rename(&self.files, &self.spare, &self.path)?;
        folder.sync_all()
    }

    fn remove_spare(&mut self) -> io::Result<()> {
        fs::remove_file(&self.files, &self.spare)?;
        fs::open(&self.files, &self.folder)?.sync_all()
    }

    fn read(&mut self) -> Result<Option<Vec<u8>>, StoreFault> {
        match fs::open(&self.files, &self.path) {
            Ok(mut file) => {
                let room = length_of(&file);
                Ok(Some(read_with_room(self.alloc, room, &mut file)?))
            }
            Err(error) => missing(error, None),
        }
    }

    // The comparison is piece by piece, so the bytes needn't all be in memory.
    fn has_content(&mut self, bytes: &[u8]) -> Result<bool, StoreFault> {
        match fs::open(&self.files, &self.path) {
            Ok(mut file) => reads_exactly(&mut file, bytes),
            Err(error) => missing(error, false),
        }
    }
}
