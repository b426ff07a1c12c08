//! How many lines were answered otherwise than by a reply.
ghost use Rattle.bank_program.specs.inner.CountSteps.{CountsNone, CountsOneMore};

use memchr::{memchr, memmem};
use sb_calls::LOG_CALLS;
use sb_rows::next_line;

/// How many lines were answered, and how many of them otherwise than by a reply.
#[derive(Clone, Copy, Debug, PartialEq, Eq)]
pub struct AnswerCounts {
    /// All of them.
    pub answers: usize,
    /// Those whose key is new, when the log is full.
    pub log_full: usize,
    /// Those whose key has another call.
    pub mismatches: usize,
}

impl AnswerCounts {
    /// No line was answered.
    pub(crate) fn new() -> AnswerCounts
        ensures { CountsNone result }
    {
        AnswerCounts {
            answers: 0,
            log_full: 0,
            mismatches: 0,
        }
    }

    /// One more line was answered so.
    pub(crate) fn count_one(&mut self, answer: AnswerKind)
        ensures { CountsOneMore answer self.old self.new }
    {
        self.answers = self.answers.saturating_add(1);
        match answer {
            AnswerKind::Reply => {}
            AnswerKind::LogFull => self.log_full = self.log_full.saturating_add(1),
            AnswerKind::Mismatch => self.mismatches = self.mismatches.saturating_add(1),
        }
    }

    /// Tells on standard error how many lines were answered otherwise than by a reply, if some were.
    pub fn print_to_stderr(&self, rt: &HostRuntime) {
        let (answers, log_full, mismatches) = (self.answers, self.log_full, self.mismatches);
        // If standard error fails, the answers are printed all the same.
        if log_full > 0 {
            let _ = eprintln!(rt; "smallbank: {log_full} of {answers} lines: log full");
        }
        if mismatches > 0 {
            let _ = eprintln!(rt; "smallbank: {mismatches} of {answers} lines: mismatch");
        }
    }
}

/// How a line was answered.
#[derive(Clone, Copy)]
pub(crate) enum AnswerKind {
    /// By a reply.
    Reply,
    /// The log is full.
    LogFull,
    /// Its key has another call.
    Mismatch,
}

// How many bytes the shortest line of a reply has, as `1 done` with its line feed.
const SHORTEST_LINE: usize = 7;

/// The counts of a run's whole output. Nothing is counted if each line was answered by a reply: so a run whose
/// lines are takes one search of its output, and another one if a log can be full.
pub fn count_answers(output: &[u8]) -> AnswerCounts {
    let mut counts = AnswerCounts::new();
    let can_be_full = output.len() / SHORTEST_LINE > LOG_CALLS;
    let is_full = can_be_full && memmem::find(output, b"log full\n").is_some();
    if !is_full && memmem::find(output, b"\nmismatch ").is_none() {
        return counts;
    }
    let mut rest = output;
    while let Some((line, after)) = next_line(rest) {
        if let Some(answer) = answer_in(line) {
            counts.count_one(answer);
        }
        rest = after;
    }
    counts
}

// The answer that a line of a run's output has. A row of a customer and the total have none: their second word is
// an amount.
fn answer_in(line: &[u8]) -> Option<AnswerKind> {
    if line == b"log full".as_slice() {
        return Some(AnswerKind::LogFull);
    }
    if let Some(number) = line.strip_prefix(b"mismatch ") {
        return if number.contains(&b'.') {
            None
        } else {
            Some(AnswerKind::Mismatch)
        };
    }
    let second = line.get(memchr(b' ', line)?.saturating_add(1))?;
    if second.is_ascii_lowercase() {
        Some(AnswerKind::Reply)
    } else {
        None
    }
}
