//! The sequencer: it numbers clients' requests into one log, and remembers what it receives from
//! the replicas.
#![tactic(auto)]

mod answer;
mod answers;
mod asking;
mod donors;
mod key_hasher;
mod laws;
mod log;
mod note;
mod sequencer;

pub use answer::{AskFault, Numbered};
pub use laws::{asks_step_the_log, limits, numbering};
pub use note::{AckNote, AnswerNote, HaveNote};
pub use sb_calls::REPLICAS;
pub use sequencer::{RESEND, Sequencer};
