//! A whole schedule: its output is a stated function of its input.
ghost use Rattle.std.specs.Prelude.{◌≡◌, List, IfSome, IfErr, OnOk, MatchResult};
ghost use Rattle.sb_rows.specs.Text.{unlines};
ghost use Rattle.schedule_player.specs.EventLists.{PlaysEvents};
ghost use Rattle.schedule_player.specs.RunText.{HasOutput, WritesOutput, played_lines};
ghost use Rattle.schedule_player.specs.ScheduleFaults.{BlamesSchedule, LeavesWriter};
ghost use Rattle.schedule_player.specs.inner.FaultConversions.{BlamesScheduleText};
ghost use Rattle.schedule_player.specs.declared.fault.ScheduleFault.TheVariants as faults;
ghost use Rattle.schedule_text.specs.ScheduleText.{schedule_of};
ghost use Rattle.schedule_text.specs.declared.note.Note.{Note as AnyNote};

mod printing;

use crate::fault::ScheduleFault;
use crate::running::printing::push_states;
use crate::world::{World, play_lines};
use sb_text::{read_all, write_whole};
use schedule_text::{Events, Schedule, read_schedule};
use std::alloc::Global;
use std::io::{Read, Write};

/// Reads a schedule, plays its events, and writes a line for each note and then the state of each
/// replica.
///
/// The whole schedule is read and checked before the first event. Fails with
/// - [`ScheduleFault::Input`] at the first line at fault,
/// - [`ScheduleFault::Device`] if a read or a write fails, or if the input takes more than
///   [`sb_text::READS`] reads,
/// - [`ScheduleFault::OutOfMemory`] if memory is refused.
///
/// After [`ScheduleFault::Device`] part of the output may be written, after all others nothing.
pub fn run_schedule<R: Read, W: Write>(
    alloc: Global,
    reader: &mut R,
    writer: &mut W,
) -> Result<(), ScheduleFault>
    // No line was at fault, and the output is that of the machine's notes and final states.
    ensures done { OnOk result (IfSome (R.remaining reader.old) (λ input.
        WritesOutput (schedule_of input) (W.contents writer.old) (W.contents writer.new))) }
    // A line's fault is the first of the input.
    ensures first { IfErr result (λ fault. IfSome (R.remaining reader.old) (λ input.
        BlamesSchedule fault (schedule_of input))) }
    // Nothing was written, unless a device failed.
    ensures unwritten { IfErr result (λ fault.
        LeavesWriter fault (W.contents writer.old) (W.contents writer.new)) }
{
    let input = read_all(alloc, reader)?;
    let output = output_text(alloc, &input)?;
    match write_whole(writer, &output) {
        Ok(()) => Ok(()),
        Err(_) => Err(ScheduleFault::Device),
    }
}

// The output of a schedule.
fn output_text(alloc: Global, text: &[u8]) -> Result<Vec<u8>, ScheduleFault>
    ensures { MatchResult result
        (λ output. HasOutput (schedule_of text.now) output.items)
        (λ fault. BlamesScheduleText fault (schedule_of text.now)) }
{
    let Schedule {
        nodes,
        workers,
        directory,
        columns,
        events,
    } = read_schedule(alloc, text)?;
    let mut world = World::open(alloc, directory, columns, nodes, workers)?;
    play_and_list(alloc, &mut world, &events)
}

// Plays events, and lists a line for each note and the state of each replica.
fn play_and_list(
    alloc: Global,
    world: &mut World,
    events: &Events,
) -> Result<Vec<u8>, ScheduleFault>
    ensures { MatchResult result
        (λ output. (notes : List AnyNote) × (PlaysEvents world.old events.now notes world.new
        × (output.items ≡ unlines (played_lines notes world.new))))
        (λ fault. fault ≡ faults.OutOfMemory) }
{
    let mut output = Vec::new(alloc);
    play_lines(world, events, &mut output)?;
    push_states(world, &mut output)?;
    Ok(output)
}
