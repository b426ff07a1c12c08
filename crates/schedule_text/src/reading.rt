//! The text of a whole schedule: a head, an opening, then one event on each line.
ghost use Rattle.std.specs.Prelude.{◌≡◌, ◌≤◌, Ok, length, IfOk, MatchResult};
ghost use Rattle.sb_rows.specs.Opening.{opening_of};
ghost use Rattle.schedule_text.specs.inner.LineFaults.{BlamesLine};
ghost use Rattle.schedule_text.specs.ScheduleReading.{ReadsSchedule};
ghost use Rattle.schedule_text.specs.ScheduleText.{below_head, schedule_of};

use crate::event_text::read_events;
use crate::fault::{ScheduleLineFault, TextFault};
use crate::head::read_head;
use crate::schedule::Schedule;
use sb_rows::{Opening, OpeningFault, read_opening};
use std::alloc::Global;

/// Reads a whole schedule: the line `nodes N workers W`, an opening, then one event on each line.
///
/// Fails with the first line at fault and its first fault, or if memory is refused.
pub fn read_schedule(alloc: Global, text: &[u8]) -> Result<Schedule, TextFault>
    ensures { ReadsSchedule result (schedule_of text.now) }
{
    let (nodes, workers, below) = read_head(text)?;
    let opening = read_below(alloc, below)?;
    let first_line = opening.directory.len() + 3;
    let events = read_events(alloc, &below[opening.consumed..], first_line)?;
    Ok(Schedule {
        nodes,
        workers,
        directory: opening.directory,
        columns: opening.columns,
        events,
    })
}

// Reads the opening below the head, whose lines are numbered from 2.
fn read_below(alloc: Global, text: &[u8]) -> Result<Opening, TextFault>
    ensures exact { MatchResult result
        (λ o. opening_of text.now
        ≡ Ok (record { names = o.directory; balances = o.columns; consumed = o.consumed }))
        (λ fault. BlamesLine fault (below_head (opening_of text.now))) }
    ensures within { IfOk result (λ o. o.consumed ≤ length text.now) }
{
    match read_opening(alloc, text) {
        Ok(opening) => Ok(opening),
        Err(OpeningFault::OutOfMemory) => Err(TextFault::OutOfMemory),
        Err(OpeningFault::Line { line, fault }) => Err(TextFault::Line {
            line: line + 1,
            fault: ScheduleLineFault::Opening(fault),
        }),
    }
}
