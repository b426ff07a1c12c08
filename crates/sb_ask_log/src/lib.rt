//! The asks of a sequencer's log, kept in a file.
#![tactic(auto)]

mod ask_log;
mod ask_replay;
mod creation;
mod keeper;
mod laws;
mod log_in_file;
mod memory_log;
mod opening_text;

pub use ask_log::AskLog;
pub use creation::create_asks;
pub use keeper::{Keeper, NoKeeper};
pub use laws::recovers_what_it_told;
pub use log_in_file::{LogInFile, read_asks, recover_asks};
pub use memory_log::{ASK_RECORD, MemoryLog};
pub use opening_text::{is_opening_text, with_line_end};
