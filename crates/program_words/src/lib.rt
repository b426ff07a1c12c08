//! What the words of the program say.
#![tactic(auto)]

mod address;
mod command;
mod listing;
mod option_words;
mod options;
mod plan;
mod subcommands;
mod words;

pub use address::here;
pub use listing::Listing;
pub use plan::Plan;
pub use words::{
    AskWords, CheckpointView, CheckpointWords, LogAction, LogWords, RunWords, ServeWords, Words,
    read_words, refuse_bytes,
};
