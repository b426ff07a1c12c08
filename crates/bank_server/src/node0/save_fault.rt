//! Why a bank isn't saved.
ghost use Rattle.std.specs.Prelude.{◌≡◌};
ghost use Rattle.bank_server.specs.inner.SaveFaults.{save_of_mark_fault, save_of_store_fault};

use sb_checkpoint::StoreFault;
use sb_replica::MarkFault;
use thiserror::Error;

/// Why a bank isn't saved. The log and the rows are as they were.
#[derive(Clone, Copy, Debug, PartialEq, Eq, Error)]
pub enum SaveFault {
    /// A put or a get of the store failed. It holds the whole old checkpoint or the whole new one.
    #[error("device")]
    Device,
    /// What was read back isn't what was put. An honest store never does that.
    #[error("read back")]
    ReadBack,
    /// Memory was refused. The store may hold the new checkpoint already.
    #[error("out of memory")]
    OutOfMemory,
    /// Something is unfinished. The store wasn't touched.
    #[error("busy")]
    Busy,
}

impl From<MarkFault> for SaveFault {
    ghost from_gives = { λ mark fault. fault ≡ save_of_mark_fault mark };

    fn from(mark: MarkFault) -> SaveFault {
        match mark {
            MarkFault::Busy => SaveFault::Busy,
            MarkFault::Device => SaveFault::Device,
            MarkFault::OutOfMemory => SaveFault::OutOfMemory,
        }
    }
}

impl From<StoreFault> for SaveFault {
    ghost from_gives = { λ store fault. fault ≡ save_of_store_fault store };

    fn from(store: StoreFault) -> SaveFault {
        match store {
            StoreFault::Device => SaveFault::Device,
            StoreFault::OutOfMemory => SaveFault::OutOfMemory,
        }
    }
}
