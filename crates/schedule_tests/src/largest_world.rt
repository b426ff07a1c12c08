//! The largest world: sixteen replicas of sixteen workers, each of which takes a job and finishes
//! it.
use crate::worlds::{agree, all_happen, at, stands_at, world_over};
use sb_calls::{Reply, read_call};
use schedule_player::{AuditNote, Event, NodeEvent, Note, World};
use std::process::Abort;

const REPLICAS: u32 = 16;

const WORKERS: u32 = 16;

// A customer for each worker of a replica.
const OPENING: &str =
    "a 0.00 1.00\nb 0.00 1.00\nc 0.00 1.00\nd 0.00 1.00\ne 0.00 1.00\nf 0.00 1.00\n\
    g 0.00 1.00\nh 0.00 1.00\ni 0.00 1.00\nj 0.00 1.00\nk 0.00 1.00\nl 0.00 1.00\nm 0.00 1.00\n\
    n 0.00 1.00\no 0.00 1.00\np 0.00 1.00\nbegin\n";

// A deposit for each of them; none waits for another.
const DEPOSITS: [&str; 16] = [
    "deposit a 1.00",
    "deposit b 1.00",
    "deposit c 1.00",
    "deposit d 1.00",
    "deposit e 1.00",
    "deposit f 1.00",
    "deposit g 1.00",
    "deposit h 1.00",
    "deposit i 1.00",
    "deposit j 1.00",
    "deposit k 1.00",
    "deposit l 1.00",
    "deposit m 1.00",
    "deposit n 1.00",
    "deposit o 1.00",
    "deposit p 1.00",
];

fn is_noted(rt: &impl Abort, world: &mut World, event: Event, note: Note) {
    assert!(rt; world.step(event) == Ok(note));
}

fn asks_for_each(rt: &impl Abort, world: &mut World) {
    for request in 0..WORKERS {
        let line = DEPOSITS[request as usize];
        let event = Event::Ask {
            client: 1,
            request,
            call: read_call(line.as_bytes()).expect(rt, "a call"),
        };
        is_noted(rt, world, event, Note::New(u64::from(request) + 1));
    }
}

// A replica accepts the deposits, and each of its workers takes one.
fn takes_each(rt: &impl Abort, world: &mut World, replica: u32) {
    for number in 1..=WORKERS {
        let note = u64::from(number);
        is_noted(
            rt,
            world,
            at(replica, NodeEvent::Send { number }),
            Note::Sent(note),
        );
        let position = number;
        is_noted(
            rt,
            world,
            at(replica, NodeEvent::To { position }),
            Note::Accepted(note),
        );
        let take = at(
            replica,
            NodeEvent::Take {
                worker: number,
                index: 0,
            },
        );
        is_noted(rt, world, take, Note::Took(note));
    }
}

// Each of the replica's workers finishes what it has, the last worker first.
fn finishes_each(rt: &impl Abort, world: &mut World, replica: u32) {
    for before in 0..WORKERS {
        let worker = WORKERS - before;
        let note = Note::Finished(u64::from(worker), Reply::Done);
        is_noted(rt, world, at(replica, NodeEvent::Finish { worker }), note);
    }
}

#[test]
fn each_hand_of_the_largest_world(rt: HostRuntime) {
    let mut world = world_over(&rt, rt.alloc(), OPENING, 16, 16);
    asks_for_each(&rt, &mut world);
    for replica in 0..REPLICAS {
        takes_each(&rt, &mut world, replica);
        stands_at(&rt, &world, replica, 16, false);
    }
    // All 256 hands are full.
    for replica in 0..REPLICAS {
        finishes_each(&rt, &mut world, replica);
        stands_at(&rt, &world, replica, 16, true);
    }
    agree(&rt, &world, 0, 15, 16);
    all_happen(
        &rt,
        &mut world,
        &[
            ("audit 0 15", Note::Audit(AuditNote::Same(3_200, 0))),
            ("take 0 17 0", Note::Nothing),
            ("take 16 1 0", Note::Nothing),
        ],
    );
}
