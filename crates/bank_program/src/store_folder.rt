//! The folder of node 0's checkpoint.
ghost use Rattle.std.specs.Prelude.{◌≡◌, None, IfErr, IfOk};
ghost use Rattle.bank_program.specs.StoreLocks.{IsLockFault};

use crate::device::Device;
use crate::trouble::Trouble;
use bank_service::ServeFault;
use sb_checkpoint::{CheckpointStore, FileStore, FileWithSpare};
use std::fs;
use std::fs::{File, TryLockError};
use std::path::PathBuf;

/// The file name of node 0's checkpoint.
pub const CHECKPOINT: &str = "node0.ckpt";

/// The lock of the folder where a server keeps its checkpoint. Two servers would replace one another's.
#[derive(Drop)]
pub struct StoreLock {
    folder: Option<File>,
}

impl StoreLock {
    /// Nothing is locked.
    pub fn new() -> StoreLock {
        StoreLock { folder: None }
    }

    /// Locks a folder, for as long as the lock is kept. One that can't be opened isn't locked: whoever tries
    /// to write there is told why.
    ///
    /// Fails with
    /// - [`ServeFault::StoreInUse`] if another process has locked it,
    /// - [`ServeFault::Store`] if the system can't lock it, whose error is noted.
    pub fn lock<'d>(
        &mut self,
        rt: &HostRuntime,
        folder: &'d str,
        trouble: &Trouble<'d>,
    ) -> Result<(), ServeFault>
        ensures fault { IfErr result IsLockFault }
    {
        let Ok(file) = fs::open(rt, folder) else {
            return Ok(());
        };
        let locked = file.try_lock();
        self.folder = Some(file);
        match locked {
            Ok(()) => Ok(()),
            Err(TryLockError::WouldBlock) => Err(ServeFault::StoreInUse),
            Err(TryLockError::Error(error)) => {
                trouble.note(Device::Path(folder), &error);
                Err(ServeFault::Store)
            }
        }
    }
}

/// A store in a file, which can be written.
///
/// Fails with [`ServeFault::Store`] if it can't.
pub fn try_store<P: FileWithSpare>(file: P) -> Result<FileStore<P>, ServeFault>
    // The store was tried: in an honest folder no spare is left, and the checkpoint stays.
    ensures tried { IfOk result (λ store. P.IsHonest file → P.spare store.file ≡ None) }
    ensures unchanged { IfOk result (λ store. P.IsHonest file → P.content store.file ≡ P.content file) }
    ensures fault { IfErr result (λ fault. fault ≡ ServeFault.Store) }
{
    let mut store = FileStore::new(file);
    match store.probe() {
        Ok(()) => Ok(store),
        Err(_) => Err(ServeFault::Store),
    }
}

/// Tells on standard error of a checkpoint in a bank's folder that the bank hasn't put there, since it begins:
/// it will be replaced.
pub fn tell_earlier(rt: &HostRuntime, folder: &str) {
    if has_checkpoint(rt, folder) {
        let name = CHECKPOINT;
        // If standard error fails, the bank is served all the same.
        let _ = eprintln!(rt;
            "smallbank: store: {folder}/{name} is of an earlier bank, and will be replaced"
        );
    }
}

// Whether there is a checkpoint in a folder, as far as the system and memory say.
fn has_checkpoint(rt: &HostRuntime, folder: &str) -> bool {
    let Ok(folder) = PathBuf::from_str(rt.alloc(), folder) else {
        return false;
    };
    match folder.join(rt.alloc(), CHECKPOINT) {
        Ok(path) => fs::exists(rt, &path).unwrap_or(false),
        Err(_) => false,
    }
}
