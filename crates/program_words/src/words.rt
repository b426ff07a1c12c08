//! The program's words.
ghost use Rattle.std.specs.Prelude.{◌≡◌, IfErr, IfOk, IfSome};
ghost use Rattle.clap.specs.Values.{kind_of};
ghost use Rattle.program_words.specs.Words.{InRange, IsRefusal, NamesProgram, GivesValues};
ghost use Rattle.program_words.specs.inner.WordValues.{IsReadOf};

mod ask;
mod checkpoint;
mod log;
mod run;
mod serve;

use crate::command::command;
pub use ask::AskWords;
use ask::ask_words;
use checkpoint::checkpoint_words;
pub use checkpoint::{CheckpointView, CheckpointWords};
use clap::error::ErrorKind;
use clap::{Command, Error};
use log::log_words;
pub use log::{LogAction, LogWords};
pub use run::RunWords;
use run::run_words;
pub use serve::ServeWords;
use serve::serve_words;
use std::alloc::{AllocError, Global};

// The text for words that clap takes and `parse_words` doesn't: an address that is none. No others are known.
const UNREAD: &str =
    "these take 1 to 16 nodes, 0 to 16 workers, 1 to 1000 clients at once, 1 to 1000 sessions without \
    these or a log, 1 to 86400 seconds, a port and a client's numbers, as plain numbers, an address as 0.0.0.0:4000 or \
    [::1]:4000, and a log's folder or a checkpoint's file with one flag at most";

const NO_TEXT: &str = "a word isn't UTF-8";

/// What the program does.
#[derive(Clone, Copy, Debug, PartialEq, Eq)]
pub enum Words<'a> {
    /// Run an opening and calls from standard input.
    Run(RunWords),
    /// Play a schedule from standard input.
    Play,
    /// Serve the bank of an opening from standard input.
    Serve(ServeWords<'a>),
    /// List a log, or cut it.
    Log(LogWords<'a>),
    /// Ask a bank that is served the calls from standard input.
    Ask(AskWords),
    /// Print a checkpoint.
    Checkpoint(CheckpointWords<'a>),
}

/// Reads the program's words; the first is its name. Without further words it is `run`.
///
/// Fails with clap's error, whose text and exit status say what is wrong. A call for help or for
/// the version is one too.
pub fn read_words<'a>(alloc: Global, words: &'a [String]) -> Result<Words<'a>, Error>
    ensures names { IfOk result (λ read. NamesProgram read words.entry.now) }
    ensures range { IfOk result (λ read. InRange read) }
    ensures values { IfOk result (λ read. GivesValues read words.entry.now) }
{
    check(alloc, words)?;
    // The values are checked here again, so that no clause rests on clap's grammar.
    match parse_words(words) {
        Some(read) => Ok(read),
        None => Err(refuse(alloc, UNREAD)),
    }
}

// Fails if the words don't follow the command's grammar.
fn check<'a>(alloc: Global, words: &'a [String]) -> Result<(), Error> {
    let mut command = boxed_command(alloc)?;
    command.try_get_matches_from_mut(words)?;
    Ok(())
}

/// The error if a word isn't UTF-8: the words are wrong, or memory was refused.
pub fn refuse_bytes(alloc: Global) -> Error
    ensures { IsRefusal (kind_of result) }
{
    refuse(alloc, NO_TEXT)
}

// The error that says this of the words, or that memory was refused.
fn refuse(alloc: Global, text: &str) -> Error
    ensures { IsRefusal (kind_of result) }
{
    match refusal(alloc, text) {
        Ok(error) => error,
        Err(error) => Error::from(error),
    }
}

// A fault of the words with this text.
fn refusal(alloc: Global, text: &str) -> Result<Error, AllocError>
    ensures { IfOk result (λ error. kind_of error ≡ ErrorKind.ValueValidation) }
{
    boxed_command(alloc)?.error(ErrorKind::ValueValidation, text)
}

// The program's command. A function that owned it would have a drop path for it at each `?`.
fn boxed_command<'a>(alloc: Global) -> Result<Box<Command<'a>>, AllocError> {
    Ok(Box::new(alloc, command(alloc)?)?)
}

// What the words after the program's name say.
fn parse_words<'a>(words: &'a [String]) -> Option<Words<'a>>
    ensures { IfSome result (λ read. IsReadOf words.entry.now read) }
{
    let [_, program, ..] = words else {
        return Some(Words::Run(RunWords {
            nodes: 1,
            workers: 0,
            strict: false,
        }));
    };
    let options = &words[2..];
    match program.as_str() {
        "run" => Some(Words::Run(run_words(options)?)),
        "play" => Some(Words::Play),
        "serve" => Some(Words::Serve(serve_words(options)?)),
        "log" => Some(Words::Log(log_words(options)?)),
        "ask" => Some(Words::Ask(ask_words(options)?)),
        "checkpoint" => Some(Words::Checkpoint(checkpoint_words(options)?)),
        _ => None,
    }
}
