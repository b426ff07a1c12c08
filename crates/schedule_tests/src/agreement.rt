//! Replicas that are asked and compared after each event of a random schedule.
use crate::disorder::step;
use crate::worlds::{agree, at, world_of};
use sb_calls::read_call;
use sb_checkpoint::How;
use schedule_player::{Event, NodeEvent, SystemEvent, World};
use std::process::Abort;

const CALLS: [&str; 8] = [
    "deposit alice 1.00",
    "amalgamate alice bob",
    "balance bob",
    "check carol 12.00",
    "savings alice 7.00",
    "balance alice",
    "pay bob carol 3.00",
    "balance carol",
];

fn asks_for_all(rt: &impl Abort, world: &mut World) {
    for place in 0..CALLS.len() {
        let event = Event::Ask {
            client: 1,
            request: place as u32,
            call: read_call(CALLS[place].as_bytes()).expect(rt, "a call"),
        };
        assert!(rt; world.step(event).is_ok());
    }
}

// How a put ends.
fn ending(random: u32) -> How {
    match random % 4 {
        0 => How::Old,
        1 => How::New,
        _ => How::Ok,
    }
}

// Something that happens at a replica, or to it.
fn happening(replica: u32, kind: u32, random: u32) -> Event {
    let position = random % 24 + 1;
    let worker = random % 2 + 1;
    match kind {
        0 => at(replica, NodeEvent::Resend),
        1 => at(replica, NodeEvent::Restart),
        2 => at(replica, NodeEvent::Cut),
        3 => at(
            replica,
            NodeEvent::Mark {
                how: ending(random),
            },
        ),
        4 => Event::System(SystemEvent::Give {
            donor: random % 3,
            replica,
        }),
        5 => at(replica, NodeEvent::Adopt { position }),
        6 | 7 => at(replica, NodeEvent::Next),
        8..=16 => at(
            replica,
            NodeEvent::Take {
                worker,
                index: random / 2 % 2,
            },
        ),
        17..=25 => at(replica, NodeEvent::Finish { worker }),
        _ => at(replica, NodeEvent::To { position }),
    }
}

// Any two of the three agree, and each with itself.
fn all_agree(rt: &impl Abort, world: &World) {
    for replica in 0..3 {
        agree(rt, world, replica, replica, 9);
        agree(rt, world, replica, (replica + 1) % 3, 9);
    }
}

// How many replies the first two replicas both hold.
fn shared_replies(rt: &impl Abort, world: &World) -> usize {
    assert!(rt; world.replicas() == 3);
    (1..=8)
        .filter(|number| world.reply(0, *number).is_some() && world.reply(1, *number).is_some())
        .count()
}

#[test]
fn replicas_agree_after_each_of_many_events(rt: HostRuntime) {
    let mut world = world_of(&rt, rt.alloc(), 3, 2);
    asks_for_all(&rt, &mut world);
    let mut random = 1;
    let mut shared = 0;
    for _ in 0..4_000 {
        random = step(random);
        let event = happening(random % 3, random / 3 % 40, random / 120);
        assert!(rt; world.step(event).is_ok());
        all_agree(&rt, &world);
        shared = shared.max(shared_replies(&rt, &world));
    }
    assert!(rt; shared == 8, "{shared}");
}
