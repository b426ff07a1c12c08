//! The lines of events.
ghost use Rattle.std.specs.Prelude.{◌≡◌, ◌+◌, ◌<◌, ◌^◌, Ok, [], length, MatchResult};
ghost use Rattle.sb_rows.specs.Opening.{at_line};
ghost use Rattle.sb_rows.specs.Text.{lines};
ghost use Rattle.schedule_text.specs.EventText as spec;
ghost use Rattle.schedule_text.specs.EventText.{event_of, mark_event};
ghost use Rattle.schedule_text.specs.inner.LineFaults.{BlamesLine};
ghost use Rattle.schedule_text.specs.ScheduleText.{events_from, in_events};

use crate::event::{Event, NodeEvent, SystemEvent};
use crate::events::Events;
use crate::fault::{EventFault, ScheduleLineFault, TextFault};
use crate::parsing::{parse_call, parse_end, parse_one, parse_three, parse_two};
use sb_calls::{Call, read_number};
use sb_checkpoint::How;
use sb_rows::{Words, next_line, word_is};
use std::alloc::Global;

// The usual length of an event's line, in bytes. Room is made by that. If lines are shorter, the
// list grows.
const USUAL_LINE: usize = 16;

/// The event that a line says.
///
/// Fails with the first fault of the line, in the order of [`EventFault`]'s variants.
#[tactic(auto, unfolding(crate::specs::EventText::event_of))]
pub fn read_event(line: &[u8]) -> Result<Event, EventFault>
    ensures { result ≡ event_of line.now }
{
    let mut words = Words::of(line);
    let Some(verb) = words.next() else {
        return Err(EventFault::UnknownEvent);
    };
    if word_is(verb, b"ask") {
        let (client, request, call) = parse_call(words)?;
        return Ok(Event::Ask {
            client,
            request,
            call,
        });
    }
    if word_is(verb, b"send") {
        let (replica, number) = parse_two(words)?;
        return Ok(Event::At {
            replica,
            event: NodeEvent::Send { number },
        });
    }
    if word_is(verb, b"resend") {
        let replica = parse_one(words)?;
        return Ok(Event::At {
            replica,
            event: NodeEvent::Resend,
        });
    }
    if word_is(verb, b"to") {
        let (replica, position) = parse_two(words)?;
        return Ok(Event::At {
            replica,
            event: NodeEvent::To { position },
        });
    }
    report_event(verb, words)
}

// The event of this first word and the words after it, of those that replicas send to the
// sequencer.
fn report_event(verb: &[u8], words: Words) -> Result<Event, EventFault>
    ensures { result ≡ spec.report_event verb.now words.entry }
{
    if word_is(verb, b"ack") {
        let replica = parse_one(words)?;
        return Ok(Event::At {
            replica,
            event: NodeEvent::Ack,
        });
    }
    if word_is(verb, b"answer") {
        let (replica, number) = parse_two(words)?;
        return Ok(Event::At {
            replica,
            event: NodeEvent::Answer { number },
        });
    }
    if word_is(verb, b"have") {
        let replica = parse_one(words)?;
        return Ok(Event::At {
            replica,
            event: NodeEvent::Have,
        });
    }
    if word_is(verb, b"from") {
        let (replica, position) = parse_two(words)?;
        return Ok(Event::System(SystemEvent::From { replica, position }));
    }
    replica_event(verb, words)
}

// The event of this first word and the words after it, of those that replicas do without the
// network.
fn replica_event(verb: &[u8], words: Words) -> Result<Event, EventFault>
    ensures { result ≡ spec.replica_event verb.now words.entry }
{
    if word_is(verb, b"take") {
        let (replica, worker, index) = parse_three(words)?;
        return Ok(Event::At {
            replica,
            event: NodeEvent::Take { worker, index },
        });
    }
    if word_is(verb, b"finish") {
        let (replica, worker) = parse_two(words)?;
        return Ok(Event::At {
            replica,
            event: NodeEvent::Finish { worker },
        });
    }
    if word_is(verb, b"next") {
        let replica = parse_one(words)?;
        return Ok(Event::At {
            replica,
            event: NodeEvent::Next,
        });
    }
    if word_is(verb, b"audit") {
        let (first, second) = parse_two(words)?;
        return Ok(Event::System(SystemEvent::Audit { first, second }));
    }
    state_event(verb, words)
}

// The event of this first word and the words after it, of those of checkpoints and states.
fn state_event(verb: &[u8], words: Words) -> Result<Event, EventFault>
    ensures { result ≡ spec.state_event verb.now words.entry }
{
    if word_is(verb, b"mark") {
        return mark_event(words);
    }
    if word_is(verb, b"restart") {
        let replica = parse_one(words)?;
        return Ok(Event::At {
            replica,
            event: NodeEvent::Restart,
        });
    }
    if word_is(verb, b"cut") {
        let replica = parse_one(words)?;
        return Ok(Event::At {
            replica,
            event: NodeEvent::Cut,
        });
    }
    if word_is(verb, b"donor") {
        let replica = parse_one(words)?;
        return Ok(Event::System(SystemEvent::Donor { replica }));
    }
    if word_is(verb, b"give") {
        let (donor, replica) = parse_two(words)?;
        return Ok(Event::System(SystemEvent::Give { donor, replica }));
    }
    if word_is(verb, b"adopt") {
        let (replica, position) = parse_two(words)?;
        return Ok(Event::At {
            replica,
            event: NodeEvent::Adopt { position },
        });
    }
    log_event(verb, words)
}

// The event of this first word and the words after it, of those of a log of which only a part is
// synced.
fn log_event(verb: &[u8], words: Words) -> Result<Event, EventFault>
    ensures { result ≡ spec.log_event verb.now words.entry }
{
    if word_is(verb, b"append") {
        let (client, request, call) = parse_call(words)?;
        return Ok(Event::Append {
            client,
            request,
            call,
        });
    }
    if word_is(verb, b"sync") {
        parse_end(words)?;
        return Ok(Event::System(SystemEvent::Sync));
    }
    if word_is(verb, b"crash") {
        let kept = parse_one(words)?;
        return Ok(Event::System(SystemEvent::Crash { kept }));
    }
    Err(EventFault::UnknownEvent)
}

// The words after `mark`: the replica's number, and how the put ends.
fn mark_event(mut words: Words) -> Result<Event, EventFault>
    ensures { result ≡ mark_event words.entry }
{
    let (Ok(replica), Ok(how)) = (words.word(), words.last()) else {
        return Err(EventFault::WrongWords);
    };
    let (Some(replica), Some(how)) = (read_number(replica), how_of(how)) else {
        return Err(EventFault::BadNumber);
    };
    Ok(Event::At {
        replica,
        event: NodeEvent::Mark { how },
    })
}

// How a put ends, as a word says it.
fn how_of(word: &[u8]) -> Option<How>
    ensures { result ≡ spec.how_of word.now }
{
    if word_is(word, b"ok") {
        return Some(How::Ok);
    }
    if word_is(word, b"old") {
        return Some(How::Old);
    }
    if word_is(word, b"new") {
        return Some(How::New);
    }
    None
}

// Reads an event from each line. The first line has this number.
pub(crate) fn read_events(
    alloc: Global,
    text: &[u8],
    first_line: usize,
) -> Result<Events, TextFault>
    requires { first_line + length text.now < 2 ^ 64 }
    ensures { MatchResult result
        (λ events. events_from first_line [] (lines text.now) ≡ Ok events)
        (λ fault. BlamesLine fault (in_events (events_from first_line [] (lines text.now)))) }
{
    // The checker goes through an event's parts, and needs the types stated.
    let _parts: Option<(Call, How)> = None;
    let mut events = Events::with_capacity(alloc, text.len() / USUAL_LINE)?;
    let mut left = text;
    while let Some((line, rest)) = next_line(left) {
        match read_event(line) {
            Ok(event) => events.push(event)?,
            Err(fault) => {
                return Err(TextFault::Line {
                    line: first_line + events.len(),
                    fault: ScheduleLineFault::Event(fault),
                });
            }
        }
        left = rest;
    }
    Ok(events)
}
