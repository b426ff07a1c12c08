//! Why a log isn't listed.
ghost use Rattle.std.specs.Prelude.{◌≡◌};
ghost use Rattle.bank_service.specs.declared.list_fault.ListFault.TheVariants.{Log, OutOfMemory};

use sb_log::LogFault;
use std::alloc::AllocError;
use thiserror::Error;

/// Why a log isn't listed.
#[derive(Clone, Copy, Debug, PartialEq, Eq, Error)]
pub enum ListFault {
    /// The log's file is damaged, can't be read, or is in use.
    #[error("log: {0}")]
    Log(LogFault),
    /// There is no log in the file: it has no whole first record.
    #[error("log: no log")]
    NoLog,
    /// The rest of a log that is cut can't be written beside it, where there may be one. The log stays.
    #[error("log: the rest can't be written")]
    Rest,
    /// A write failed.
    #[error("device")]
    Device,
    /// Memory was refused.
    #[error("out of memory")]
    OutOfMemory,
}

impl From<LogFault> for ListFault {
    ghost from_gives = { λ log fault. fault ≡ Log log };

    fn from(log: LogFault) -> ListFault {
        ListFault::Log(log)
    }
}

impl From<AllocError> for ListFault {
    ghost from_gives = { λ _ fault. fault ≡ OutOfMemory };

    fn from(_: AllocError) -> ListFault {
        ListFault::OutOfMemory
    }
}
