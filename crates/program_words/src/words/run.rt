//! The words after `run`.
ghost use Rattle.std.specs.Prelude.{IfSome};
ghost use Rattle.program_words.specs.inner.WordValues.{IsRunOf};

use crate::options::{has_word, parse_count};
use sb_calls::{REPLICAS, WORKERS};

/// How a run goes.
#[derive(Clone, Copy, Debug, PartialEq, Eq)]
pub struct RunWords {
    /// How many nodes execute the calls: 1 to 16.
    pub nodes: usize,
    /// How many threads execute node 0's calls: 0 to 16. With 0 it executes them itself.
    pub workers: usize,
    /// Whether an input whose last line doesn't end with a line feed is refused.
    pub strict: bool,
}

/// How a run goes, by the words after `run`.
pub(super) fn run_words(options: &[String]) -> Option<RunWords>
    ensures { IfSome result (λ run. IsRunOf options.now run) }
{
    let nodes = parse_count(options, "--nodes", 1)?;
    let workers = parse_count(options, "--workers", 0)?;
    let strict = has_word(options, "--strict");
    if (1..=REPLICAS).contains(&nodes) && workers <= WORKERS {
        Some(RunWords {
            nodes,
            workers,
            strict,
        })
    } else {
        None
    }
}
