//! Schedules that are played event by event.

use crate::amounts::push_amounts;
use crate::fault::CaseFault;
use crate::report::Report;
use crate::schedule::plan;
use schedule_player::{Event, StepFault, World};
use schedule_text::push_note;
use std::alloc::Global;

/// Two workers of one replica finish jobs out of order.
pub(crate) const TWO_HANDS: &str = "nodes 1 workers 2
alice 100.00 50.00
bob 0.00 20.00
carol 10.00 0.00
begin
ask 1 1 deposit alice 1.00
ask 1 2 deposit bob 1.00
ask 1 3 amalgamate alice bob
ask 1 4 balance alice
send 0 1
send 0 2
send 0 3
send 0 4
to 0 1
to 0 2
to 0 3
to 0 4
take 0 1 1
take 0 2 0
finish 0 1
take 0 1 0
finish 0 2
take 0 1 0
take 0 2 0
finish 0 1
take 0 1 0
finish 0 1
";

/// A replica marks a cut while later entries run, and goes back to it.
pub(crate) const CUT: &str = "nodes 1 workers 2
alice 100.00 50.00
bob 0.00 20.00
carol 10.00 0.00
begin
ask 1 1 deposit alice 1.00
ask 1 2 deposit alice 2.00
send 0 1
send 0 2
to 0 1
cut 0
cut 0
mark 0 ok
to 0 2
take 0 1 0
finish 0 1
take 0 1 0
mark 0 ok
finish 0 1
restart 0
";

/// A replica reports its checkpoint, and another adopts it.
pub(crate) const STATE: &str = "nodes 2 workers 1
alice 100.00 50.00
bob 0.00 20.00
carol 10.00 0.00
begin
ask 1 1 deposit alice 1.00
send 0 1
to 0 1
take 0 1 0
finish 0 1
mark 0 ok
have 0
from 0 1
donor 1
give 0 1
adopt 1 1
adopt 1 1
audit 0 1
restart 1
";

/// The sequencer crashes twice: what isn't synced is lost, and then kept.
pub(crate) const CRASH: &str = "nodes 1 workers 1
alice 100.00 50.00
bob 0.00 20.00
carol 10.00 0.00
begin
append 1 1 deposit alice 1.00
sync
append 1 2 deposit bob 2.00
send 0 1
to 0 1
take 0 1 0
finish 0 1
crash 0
ask 1 3 deposit carol 3.00
resend 0
to 0 3
take 0 1 0
finish 0 1
append 1 4 balance bob
crash 3
append 1 4 balance bob
";

/// Reports what happens in a schedule, and what the first replica holds at the end.
pub(crate) fn play_case(alloc: Global, text: &str, report: &mut Report) -> Result<(), CaseFault> {
    let mut planned = plan(alloc, text, report)?;
    let mut left = planned.events.walk();
    while let Some(event) = left.next() {
        play_event(&mut planned.world, event, report)?;
    }
    report_columns(&planned.world, report)
}

// Plays an event.
fn play_event(world: &mut World, event: Event, report: &mut Report) -> Result<(), CaseFault> {
    let note = match world.step(event) {
        Ok(note) => note,
        Err(StepFault::OutOfMemory) => {
            report.refused("World::step")?;
            world.step(event)?
        }
    };
    Ok(push_note(note, &mut report.text)?)
}

fn report_columns(world: &World, report: &mut Report) -> Result<(), CaseFault> {
    if world.replicas() == 0 {
        return Err(CaseFault::Unfinished);
    }
    let columns = world.columns(0).ok_or(CaseFault::Unfinished)?;
    push_amounts("savings", columns.savings(), &mut report.text)?;
    push_amounts("checking", columns.checking(), &mut report.text)?;
    Ok(())
}
