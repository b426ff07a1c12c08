//! Worlds of three customers, and what happens in them.
use sb_calls::{Call, Reply, read_call};
use sb_rows::{Opening, read_opening};
use schedule_player::{Event, NodeEvent, Note, World};
use schedule_text::read_event;
use std::alloc::Global;
use std::process::Abort;

pub(crate) const OPENING: &str = "alice 100.00 50.00\nbob 0.00 20.00\ncarol 10.00 0.00\nbegin\n";

// A world of the three, with this many replicas, each with this many workers.
pub(crate) fn world_of(rt: &impl Abort, alloc: Global, nodes: u8, workers: u8) -> Box<World> {
    world_over(rt, alloc, OPENING, nodes, workers)
}

// A world over this opening.
pub(crate) fn world_over(
    rt: &impl Abort,
    alloc: Global,
    opening: &str,
    nodes: u8,
    workers: u8,
) -> Box<World> {
    assert!(rt; nodes <= 16 && 1 <= workers && workers <= 16);
    let opening = read_opening(alloc, opening.as_bytes()).expect(rt, "an opening");
    let Opening {
        directory,
        columns,
        ..
    } = opening;
    let world = World::open(alloc, directory, columns, nodes, workers).expect(rt, "memory");
    Box::new(alloc, world).expect(rt, "memory")
}

// An event at a replica.
pub(crate) fn at(replica: u32, event: NodeEvent) -> Event {
    Event::At { replica, event }
}

// The event that a line spells.
pub(crate) fn event_of(rt: &impl Abort, line: &str) -> Event {
    read_event(line.as_bytes()).expect(rt, "an event")
}

// Plays the event that a line spells, and compares its note.
fn happens(rt: &impl Abort, world: &mut World, line: &str, note: Note) {
    let event = event_of(rt, line);
    assert!(rt; world.step(event) == Ok(note), "{line}");
}

// Plays these events, one after another, and compares their notes.
pub(crate) fn all_happen(rt: &impl Abort, world: &mut World, steps: &[(&str, Note)]) {
    for (line, note) in steps {
        happens(rt, world, line, *note);
    }
}

// Checks the length of a replica's log, and whether it is idle.
pub(crate) fn stands_at(rt: &impl Abort, world: &World, replica: u32, length: u64, idle: bool) {
    assert!(rt; replica < world.replicas());
    assert!(rt; world.length(replica) == length, "{replica}");
    assert!(rt; world.idle(replica) == idle, "{replica}");
    assert!(rt; world.columns(replica).is_some() == idle, "{replica}");
}

// Checks the reply that a replica holds to a number.
pub(crate) fn replies(
    rt: &impl Abort,
    world: &World,
    replica: u32,
    number: u64,
    reply: Option<Reply>,
) {
    assert!(rt; replica < world.replicas());
    assert!(rt; world.reply(replica, number) == reply, "{replica} {number}");
}

// Checks that two replicas agree on each number up to this one, and on their rows.
pub(crate) fn agree(rt: &impl Abort, world: &World, one: u32, other: u32, numbers: u64) {
    assert!(rt; one < world.replicas() && other < world.replicas());
    assert!(rt; world.rows_agree(one, other), "{one} {other}");
    for number in 0..=numbers {
        assert!(rt;
            world.replies_agree(one, other, number),
            "{one} {other} {number}"
        );
    }
}

// Client 1 asks for this call this many times, each time as a new request.
pub(crate) fn asks(rt: &impl Abort, world: &mut World, count: u32, line: &str) {
    let call = read_call(line.as_bytes()).expect(rt, "a call");
    for position in 0..count {
        let event = new_ask(position + 1, &call);
        assert!(rt; world.step(event) == Ok(Note::New(u64::from(position) + 1)));
    }
}

fn new_ask(request: u32, call: &Call) -> Event {
    Event::Ask {
        client: 1,
        request,
        call: *call,
    }
}

// Sends the first entries, this many, to the first replica; the frame of each has the position of
// its number.
pub(crate) fn sends(rt: &impl Abort, world: &mut World, count: u32) {
    for number in 1..=count {
        let event = at(0, NodeEvent::Send { number });
        assert!(rt; world.step(event) == Ok(Note::Sent(u64::from(number))));
    }
}

// The frames at these positions arrive at the first replica, which accepts their entries.
pub(crate) fn accepts(rt: &impl Abort, world: &mut World, count: u32) {
    for position in 1..=count {
        let event = at(0, NodeEvent::To { position });
        assert!(rt; world.step(event) == Ok(Note::Accepted(u64::from(position))));
    }
}
