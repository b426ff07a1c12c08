//! The program's words.
ghost use Rattle.std.specs.Prelude.{◌≡◌, IfSome, IsTrue, Some, map, slice_get, string_bytes};
ghost use Rattle.store_timing.specs.Actions.{NamesAction, GivesDrain, GivesMeasurement, GivesAbsence, HasIntegerAt};

use crate::payees::Payees;

/// What is measured.
#[derive(Clone, Copy)]
pub enum Measurement {
    /// A crew drains a board.
    Drain(CrewChoice),
    /// A checkpoint of the greatest size is written this often.
    Write { count: u32 },
    /// It is read this often.
    Read { count: u32 },
    /// A replica adopts a state of the greatest size this often.
    Adopt { count: u32 },
    /// A board is opened on the same state this often.
    Open { count: u32 },
    /// A replica catches up by another one's state.
    ByState(Absence),
    /// It catches up by the log's entries.
    ByEntries(Absence),
}

/// What a replica missed.
#[derive(Clone, Copy)]
pub struct Absence {
    /// The number of the bank's customers.
    pub customers: u32,
    /// The length of its log when it left.
    pub before: u32,
    /// The number of entries since then.
    pub entries: u32,
}

/// Which crew executes which calls.
#[derive(Clone, Copy)]
pub enum CrewChoice {
    /// This many calls are executed in place, each after this many steps at the gate.
    InPlace {
        steps: u64,
        calls: u32,
    },
    /// This many workers execute them.
    InThreads {
        workers: usize,
        steps: u64,
        calls: u32,
    },
    /// One of this many workers executes one call, and waits for a second at the gate.
    Wait {
        workers: usize,
    },
    /// A crew that buffers sixteen jobs executes this many calls, without threads.
    Buffered {
        payees: Payees,
        calls: u32,
    },
}

/// Reads the program's words; the first is its name.
pub fn read_words(words: &[String]) -> Option<Measurement>
    ensures { IfSome result (λ measurement. GivesMeasurement measurement words.now) }
{
    if let Some(count) = count_after(words, "write") {
        return Some(Measurement::Write { count });
    }
    if let Some(count) = count_after(words, "read") {
        return Some(Measurement::Read { count });
    }
    if let Some(count) = count_after(words, "adopt") {
        return Some(Measurement::Adopt { count });
    }
    if let Some(count) = count_after(words, "open") {
        return Some(Measurement::Open { count });
    }
    if let Some(absence) = absence_after(words, "by-state") {
        return Some(Measurement::ByState(absence));
    }
    if let Some(absence) = absence_after(words, "by-entries") {
        return Some(Measurement::ByEntries(absence));
    }
    let choice = match read_threadless(words) {
        Some(choice) => choice,
        None => read_threaded(words)?,
    };
    Some(Measurement::Drain(choice))
}

// Calls that are executed without threads.
fn read_threadless(words: &[String]) -> Option<CrewChoice>
    ensures { IfSome result (λ choice. GivesDrain choice words.now) }
{
    if let Some(calls) = count_after(words, "one-customer") {
        let payees = Payees::One;
        return Some(CrewChoice::Buffered { payees, calls });
    }
    if let Some(calls) = count_after(words, "many-customers") {
        let payees = Payees::Many;
        return Some(CrewChoice::Buffered { payees, calls });
    }
    if names_action(words, 4, "none") {
        let steps = parse_u64(words, 2)?;
        let calls = parse_u32(words, 3)?;
        return Some(CrewChoice::InPlace { steps, calls });
    }
    None
}

// Calls that workers in threads of their own execute.
fn read_threaded(words: &[String]) -> Option<CrewChoice>
    ensures { IfSome result (λ choice. GivesDrain choice words.now) }
{
    let workers = parse_u64(words, 2)? as usize;
    if names_action(words, 3, "wait") {
        return Some(CrewChoice::Wait { workers });
    }
    if names_action(words, 5, "workers") {
        let steps = parse_u64(words, 3)?;
        let calls = parse_u32(words, 4)?;
        return Some(CrewChoice::InThreads {
            workers,
            steps,
            calls,
        });
    }
    None
}

// The number after the second word, if that is this one and there are no further words.
fn count_after(words: &[String], action: &str) -> Option<u32>
    ensures { IfSome result
        (λ count. NamesAction words.now 3 action.now × HasIntegerAt words.now 2 count) }
{
    if names_action(words, 3, action) {
        parse_u32(words, 2)
    } else {
        None
    }
}

// What a replica missed, by the three numbers after the second word, if that is this one and there
// are no further words.
fn absence_after(words: &[String], action: &str) -> Option<Absence>
    ensures { IfSome result
        (λ absence. NamesAction words.now 5 action.now × GivesAbsence absence words.now) }
{
    if !names_action(words, 5, action) {
        return None;
    }
    let customers = parse_u32(words, 2)?;
    let before = parse_u32(words, 3)?;
    let entries = parse_u32(words, 4)?;
    Some(Absence {
        customers,
        before,
        entries,
    })
}

// Whether there are this many words, and the second is this one.
fn names_action(words: &[String], many: usize, action: &str) -> bool
    ensures { IsTrue result → NamesAction words.now many action.now }
{
    match text(words, 1) {
        Some(word) if words.len() == many => word == action,
        _ => false,
    }
}

// The word at this position.
fn text<'a>(words: &'a [String], position: usize) -> Option<&'a str>
    ensures { IfSome result
        (λ text. slice_get (map string_bytes words.entry.now) position ≡ Some text.now) }
{
    Some(words.get(position)?.as_str())
}

// The number that the word at this position spells.
fn parse_u64(words: &[String], position: usize) -> Option<u64>
    ensures { IfSome result (λ number. HasIntegerAt words.now position number) }
{
    text(words, position)?.parse::<u64>().ok()
}

// The same, if it is below 2^32.
fn parse_u32(words: &[String], position: usize) -> Option<u32>
    ensures { IfSome result (λ number. HasIntegerAt words.now position number) }
{
    text(words, position)?.parse::<u32>().ok()
}
