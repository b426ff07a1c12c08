//! Files that are read by their names.
ghost use Rattle.std.specs.Prelude.{◌≡◌, ℕ, List, None, Option, IfErr, IfOk, IfSome};
ghost use Rattle.bank_program.specs.CheckpointPrints.{IsReadingFault};

use crate::device::Device;
use crate::trouble::Trouble;
use bank_server::RunFault;
use std::fs;
use std::io::ErrorKind;

/// Files that are read by their names.
pub trait NamedFiles<'d> {
    /// What the file of a name has, if that is known.
    ghost content: { Self → List ℕ → Option (List ℕ) };

    /// All bytes of a file.
    ///
    /// Fails if the file can't be read, or memory is refused.
    fn read_file(&self, name: &'d str) -> Result<Vec<u8>, RunFault>
        ensures read { IfOk result (λ bytes. IfSome (content self.now name.now) (λ known. bytes.items ≡ known)) }
        ensures fault { IfErr result IsReadingFault };
}

/// The files of the system, whose errors are noted. It isn't known what they have.
#[derive(Drop)]
pub struct SystemFiles<'t, 'd> {
    /// The system.
    pub rt: HostRuntime,
    /// Where errors are noted.
    pub trouble: &'t Trouble<'d>,
}

impl<'d> NamedFiles<'d> for SystemFiles<'_, 'd> {
    ghost content = { λ files name. None };

    fn read_file(&self, name: &'d str) -> Result<Vec<u8>, RunFault> {
        let read = fs::read(&self.rt, name);
        match self.trouble.noted(Device::Path(name), read) {
            Ok(bytes) => Ok(bytes),
            Err(error) if error.kind() == ErrorKind::OutOfMemory => Err(RunFault::OutOfMemory),
            Err(_) => Err(RunFault::Device),
        }
    }
}
