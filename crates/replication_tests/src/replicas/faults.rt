//! Replicas whose store fails at one call.
use super::*;
use sb_checkpoint::{FaultyStore, Version};

// A store that fails at this call, and the version that a failed put leaves; the answer to a mark
// of one entry, and those to two restarts after it.
#[derive(Clone, Copy)]
struct Case {
    at: u64,
    leaves: Version,
    mark: Result<u64, MarkFault>,
    restarts: [Result<u64, RestartFault>; 2],
}

fn opened_over_faulty(
    rt: &(impl Abort + AllocGlobal),
    at: u64,
    leaves: Version,
) -> Box<Replica<FaultyStore>> {
    let inner = MemoryStore::new(rt.alloc());
    let store = FaultyStore::new(inner, at, leaves);
    let bank = opening(rt);
    let replica = Replica::open(rt.alloc(), 1, bank.directory, bank.columns, store);
    let replica = replica.expect(rt, "memory for a replica");
    Box::new(rt.alloc(), replica).expect(rt, "memory for a box")
}

// Checks the answer to a restart; if it is refused, the entry and its reply are still there.
fn restarts_so(
    rt: &impl Abort,
    replica: &mut Replica<FaultyStore>,
    answer: Result<u64, RestartFault>,
) {
    assert!(rt; replica.restart() == answer);
    let length = answer.unwrap_or(1);
    assert!(rt; replica.length() == length);
    let reply = if length == 1 { Some(Reply::Done) } else { None };
    assert!(rt; replica.reply(1) == reply);
}

fn plays(rt: &(impl Abort + AllocGlobal), case: &Case) {
    let mut replica = opened_over_faulty(rt, case.at, case.leaves);
    receives(
        rt,
        &mut *replica,
        1,
        "deposit alice 1.00",
        Heard::Accepted(1),
    );
    runs(rt, &mut *replica, 1, Reply::Done);
    assert!(rt; replica.mark() == case.mark, "{}", case.at);
    for answer in case.restarts {
        restarts_so(rt, &mut *replica, answer);
    }
}

#[test]
fn a_device_that_fails_at_one_call(rt: HostRuntime) {
    for case in [
        Case {
            at: 1,
            leaves: Version::Old,
            mark: Err(MarkFault::Device),
            restarts: [Ok(0), Ok(0)],
        },
        Case {
            at: 1,
            leaves: Version::New,
            mark: Err(MarkFault::Device),
            restarts: [Ok(1), Ok(1)],
        },
        Case {
            at: 2,
            leaves: Version::Old,
            mark: Ok(1),
            restarts: [Err(RestartFault::Device), Ok(1)],
        },
        Case {
            at: 3,
            leaves: Version::New,
            mark: Ok(1),
            restarts: [Ok(1), Err(RestartFault::Device)],
        },
    ] {
        plays(&rt, &case);
    }
}

#[test]
fn a_device_that_fails_where_a_state_is_looked_for(rt: HostRuntime) {
    let mut replica = opened_over_faulty(&rt, 2, Version::Old);
    sends_have(&rt, &mut *replica, 0);
    assert!(rt; replica.kept_state().err() == Some(RestartFault::Device));
    sends_have(&rt, &mut *replica, 0);
}
