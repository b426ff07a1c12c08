//! Why a log failed.
ghost use Rattle.std.specs.Prelude.{◌≡◌};
ghost use Rattle.sb_log.specs.inner.FaultConversions.{log_fault_of};
ghost use Rattle.sb_log.specs.declared.log_fault.LogFault.TheVariants.{OutOfMemory};

use sb_text::ReadFault;
use std::alloc::AllocError;
use thiserror::Error;

/// Why a log failed.
#[derive(Clone, Copy, Debug, PartialEq, Eq, Error)]
pub enum LogFault {
    /// The device failed, at this call or at an earlier one. What was appended since the last sync
    /// may be lost, and the log has to be recovered.
    #[error("device")]
    Device,
    /// What stands at this byte of the file is neither a record of the log nor a beginning of one.
    /// Nothing is changed.
    #[error("damaged at byte {byte}")]
    Damaged {
        /// Where the damage begins: the size of the whole records before it.
        byte: u64,
        /// How many bytes the file has from there on.
        behind: u64,
    },
    /// Memory was refused.
    #[error("out of memory")]
    OutOfMemory,
    /// Another process has the log open.
    #[error("in use")]
    InUse,
}

impl From<AllocError> for LogFault {
    ghost from_gives = { λ _ fault. fault ≡ OutOfMemory };

    fn from(_: AllocError) -> LogFault {
        LogFault::OutOfMemory
    }
}

impl From<ReadFault> for LogFault {
    ghost from_gives = { λ read fault. fault ≡ log_fault_of read };

    fn from(read: ReadFault) -> LogFault {
        match read {
            ReadFault::Device => LogFault::Device,
            ReadFault::OutOfMemory => LogFault::OutOfMemory,
        }
    }
}
