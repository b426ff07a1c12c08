//! Checkpoints: how they are spelled and read, and where they are kept.
#![tactic(auto)]

mod checkpoint;
mod fault;
mod faulty_store;
mod fields;
mod file_store;
mod file_with_spare;
mod folder_file;
mod laws;
mod layout;
mod memory_store;
mod putting;
mod reading;
mod store;
mod writing;

pub use checkpoint::Checkpoint;
pub use fault::CheckpointFault;
pub use faulty_store::{FaultyStore, Version};
pub use file_store::FileStore;
pub use file_with_spare::FileWithSpare;
pub use folder_file::FolderFile;
pub use laws::{faultless_bytes_spell, one_checkpoint, spelling_has_no_fault};
pub use memory_store::{How, MemoryStore};
pub use reading::read_checkpoint;
pub use store::{CheckpointStore, StoreFault};
pub use writing::{Draft, write_checkpoint};
