//! Events, one after another.
ghost use Rattle.std.specs.Prelude.{◌≡◌, ◌⊎◌, ◌<◌, ◌≤◌, List, ◌++◌, map, take, length, slice_get, IfOk, IfErr, OnOk, OnErr};
ghost use Rattle.sb_rows.specs.Text.{unlines};
ghost use Rattle.schedule_player.specs.EventLists.{PlaysEvents};
ghost use Rattle.schedule_player.specs.World.{MayWantMemory, Moves, NextMayWantMemory};
ghost use Rattle.schedule_text.specs.NoteText.{note_line};
ghost use Rattle.schedule_text.specs.declared.event.Event.TheVariants.{System};
ghost use Rattle.schedule_text.specs.declared.event.SystemEvent.TheVariants as system;
ghost use Rattle.schedule_text.specs.declared.note.Note.{Note as AnyNote};

use crate::fault::{PlayFault, StepFault};
use crate::world::World;
use sb_calls::Call;
use sb_checkpoint::How;
use schedule_text::{Event, Events, Note, SystemEvent, push_note};
use std::alloc::Global;

impl World {
    // An audit of two replicas, which needn't exist.
    fn compare(&self, first: u32, second: u32) -> Result<Note, StepFault>
        ensures moves { IfOk result (λ note. Moves self.now (System (system.Audit first second)) note self.now) }
        ensures wanted { OnErr result (MayWantMemory self.now (System (system.Audit first second))) }
    {
        if first as usize >= self.nodes.len() || second as usize >= self.nodes.len() {
            return Ok(Note::Nothing);
        }
        Ok(Note::Audit(self.audit(first, second)?))
    }

    // What an event at the sequencer does, or one of two replicas.
    fn system_step(&mut self, event: SystemEvent) -> Result<Note, StepFault>
        ensures moves { IfOk result (λ note. Moves self.old (System event) note self.new) }
        ensures err { OnErr result (self.new ≡ self.old) }
        ensures wanted { OnErr result (MayWantMemory self.old (System event)) }
    {
        match event {
            SystemEvent::Sync => Ok(self.sync_log()),
            SystemEvent::Crash { kept } => self.restart_sequencer(kept),
            SystemEvent::From { replica, position } => Ok(self.deliver_report(replica, position)),
            SystemEvent::Donor { replica } => Ok(self.note_donor(replica)),
            SystemEvent::Give { donor, replica } => self.give(donor, replica),
            SystemEvent::Audit { first, second } => self.compare(first, second),
        }
    }

    /// Plays one event, and notes it.
    ///
    /// Fails if memory is refused. That can happen only if a request gets a new number, the
    /// sequencer starts again, a frame is sent, an entry is accepted, a cut is made, a checkpoint is
    /// put or gone back to, a state is given or read, or an audit adds up the books. Nothing changes
    /// then.
    pub fn step(&mut self, event: Event) -> Result<Note, StepFault>
        // The world moves as the reference machine does.
        ensures moves { IfOk result (λ note. Moves self.old event note self.new) }
        ensures err { OnErr result (self.new ≡ self.old) }
        ensures wanted { OnErr result (MayWantMemory self.old event) }
    {
        match event {
            Event::Ask {
                client,
                request,
                call,
            } => self.ask_and_sync(client, request, &call),
            Event::Append {
                client,
                request,
                call,
            } => self.append_ask(client, request, &call),
            Event::At { replica, event } => self.replica_step(replica, event),
            Event::System(event) => self.system_step(event),
        }
    }
}

/// Plays events one after another, and notes them in order.
///
/// Fails at the first event for which memory is refused, or before the first if memory is refused
/// for the notes. The fault has the number of events that happened before.
pub fn play(alloc: Global, world: &mut World, events: &[Event]) -> Result<Vec<Note>, PlayFault>
    // All events happened, with these notes.
    ensures plays { IfOk result (λ notes. PlaysEvents world.old events.now notes.items world.new) }
    // As many events happened as the fault says, and nothing else; another one follows.
    ensures stopped { IfErr result (λ fault. (fault.done < length events.now)
        × ((notes : List AnyNote) × PlaysEvents world.old (take fault.done events.now) notes world.new)) }
    // Memory may be refused for that one or, before the first, for the list of notes.
    ensures wanted { IfErr result (λ fault. (fault.done ≡ 0)
        ⊎ NextMayWantMemory world.new (slice_get events.now fault.done)) }
{
    let Ok(mut notes) = Vec::with_capacity(alloc, events.len()) else {
        return Err(PlayFault { done: 0 });
    };
    // The checker takes the event apart, and needs the types spelled out.
    let _parts: Option<(Call, How)> = None;
    for (done, event) in events.iter().enumerate() {
        match world.step(*event) {
            Ok(note) => notes.push_reserved(note),
            Err(StepFault::OutOfMemory) => return Err(PlayFault { done }),
        }
    }
    Ok(notes)
}

/// Plays events one after another, and writes a line for each note.
///
/// Fails at the first event for which memory is refused, or after the first event whose line is
/// refused memory. The fault has the number of events that happened. `out` then has the lines of
/// the notes up to there, the last of them perhaps in part.
pub fn play_lines(world: &mut World, events: &Events, out: &mut Vec<u8>) -> Result<(), PlayFault>
    // All events happened, and the lines are those of their notes.
    ensures plays { OnOk result ((notes : List AnyNote)
        × PlaysEvents world.old events.now notes world.new
        × (out.new.items ≡ out.old.items ++ unlines (map note_line notes))) }
    // As many events happened as the fault says, and nothing else.
    ensures stopped { IfErr result (λ fault. (fault.done ≤ length events.now)
        × ((notes : List AnyNote) × PlaysEvents world.old (take fault.done events.now) notes world.new)) }
    // Memory may be refused for the next one or, after the first, for the line of the last one.
    ensures wanted { IfErr result (λ fault. (0 < fault.done)
        ⊎ NextMayWantMemory world.new (slice_get events.now fault.done)) }
{
    // The checker takes the event apart, and needs the types spelled out.
    let _parts: Option<(Call, How)> = None;
    let mut left = events.walk();
    while let Some(event) = left.next() {
        let note = match world.step(event) {
            Ok(note) => note,
            Err(StepFault::OutOfMemory) => {
                let done = events.len() - left.len() - 1;
                return Err(PlayFault { done });
            }
        };
        if push_note(note, out).is_err() {
            let done = events.len() - left.len();
            return Err(PlayFault { done });
        }
    }
    Ok(())
}
