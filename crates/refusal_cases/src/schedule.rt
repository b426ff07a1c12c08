//! A schedule as a world at its opening, with its events.

use crate::fault::CaseFault;
use crate::report::Report;
use schedule_player::{Events, World};
use schedule_text::{Schedule, TextFault, read_schedule};
use std::alloc::{AllocError, Global};

/// A world, and the events that are to happen in it.
#[derive(Drop)]
pub(crate) struct ScheduledWorld {
    pub(crate) world: Box<World>,
    pub(crate) events: Events,
}

/// A world at the opening of a schedule, before the first event.
pub(crate) fn plan(
    alloc: Global,
    text: &str,
    report: &mut Report,
) -> Result<ScheduledWorld, CaseFault> {
    let schedule = read(alloc, text, report)?;
    match open(alloc, schedule) {
        Err(_) => {
            report.refused("World::open")?;
            let schedule = read(alloc, text, report)?;
            Ok(open(alloc, schedule)?)
        }
        opened => Ok(opened?),
    }
}

fn open(alloc: Global, schedule: Schedule) -> Result<ScheduledWorld, AllocError> {
    let Schedule {
        nodes,
        workers,
        directory,
        columns,
        events,
    } = schedule;
    let world = World::open(alloc, directory, columns, nodes, workers)?;
    let world = Box::new(alloc, world)?;
    Ok(ScheduledWorld { world, events })
}

fn read(alloc: Global, text: &str, report: &mut Report) -> Result<Schedule, CaseFault> {
    match read_schedule(alloc, text.as_bytes()) {
        Err(TextFault::OutOfMemory) => {
            report.refused("read_schedule")?;
            Ok(read_schedule(alloc, text.as_bytes())?)
        }
        read => Ok(read?),
    }
}
