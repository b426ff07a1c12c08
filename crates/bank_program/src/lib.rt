//! The program as a library: what it does by its words, and how its faults are reported.
#![tactic(auto)]

mod answer_counts;
mod answer_watch;
mod beginning;
mod device;
mod fault;
mod line_notes;
mod line_printer;
mod line_queue;
mod listening;
mod log_cut;
mod log_report;
mod log_rest;
mod named_files;
mod opening_bank;
mod program_checkpoint;
mod program_run;
mod queued_output;
mod report;
mod serving;
mod session_note;
mod session_printer;
mod standard_streams;
mod store_folder;
mod telling;
mod trouble;
mod waiting_text;
mod watch;

pub use answer_counts::{AnswerCounts, count_answers};
pub use answer_watch::{AskWatch, RunWatch};
pub use device::Device;
pub use fault::ProgramFault;
pub use line_notes::{Oddity, line_note, oddity_of};
pub use line_printer::{LinePrinter, print_queued};
pub use line_queue::LineQueue;
pub use listening::{listen, listen_for_many};
pub use log_cut::cut_log;
pub use log_report::{CutReport, LOG, LogReport};
pub use log_rest::{REST, RestFile, SystemRest};
pub use named_files::{NamedFiles, SystemFiles};
pub use opening_bank::{open_bank, open_bank_on_log, read_opening};
pub use program_checkpoint::checkpoint_program;
pub use program_run::run_program;
pub use queued_output::QueuedOutput;
pub use report::{Report, told};
pub use serving::{serve_bank, serve_queued, serve_to_end};
pub use session_note::SessionNote;
pub use session_printer::SessionPrinter;
pub use standard_streams::{are_open, input, output};
pub use store_folder::{CHECKPOINT, StoreLock, tell_earlier, try_store};
pub use telling::tell;
pub use trouble::{Cause, Trouble};
pub use waiting_text::QUEUED_BYTES;
pub use watch::Watch;

// What the program's words and faults are about, of the crates below.
pub use bank_server::RunFault;
pub use schedule_player::run_schedule;
