//! The asks of an input, numbered into the log.

mod asking;
mod log_number;
mod prepared_input;

pub(crate) use asking::standing_of;
pub use asking::{Standing, ask_lines};
pub use log_number::LogNumber;
pub use prepared_input::{PreparedInput, prepare};
