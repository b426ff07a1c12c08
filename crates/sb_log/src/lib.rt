//! A log that outlives the process: a file of records, each of which is on the disk before anyone is
//! told of it.
#![tactic(auto)]

mod creation;
mod durable_log;
mod faulty_file;
mod front;
mod laws;
mod log_end;
mod log_fault;
mod log_file;
mod memory_file;
mod reading;
mod record;
mod recovery;
mod replay;
mod system_file;
mod truncation;

pub use creation::create_log;
pub use durable_log::DurableLog;
pub use faulty_file::FaultyFile;
pub use laws::{keeps_what_it_told, one_record, tells_for_good};
pub use log_end::LogEnd;
pub use log_fault::LogFault;
pub use log_file::LogFile;
pub use memory_file::MemoryFile;
pub use reading::read_log;
pub use record::{HEAD, with_body, write_head};
pub use recovery::recover;
pub use replay::{Replay, ReplayFault};
pub use system_file::{Reason, SystemFile};
pub use truncation::truncate_and_sync;
