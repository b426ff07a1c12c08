//! Numbers for what clients ask.
use super::*;
use sb_calls::{Call, Key};

#[test]
fn numbers_requests_in_the_order_of_first_asks(rt: HostRuntime) {
    play_steps(
        &rt,
        1,
        &[
            Step::Reserve(1_000_000),
            Step::NumberOf(2, 1, None),
            Step::Ask(2, 1, "alice", Ok(Numbered::New(1))),
            Step::Ask(1, 1, "alice", Ok(Numbered::New(2))),
            Step::Ask(2, 2, "bob", Ok(Numbered::New(3))),
            Step::Ask(1, 1, "alice", Ok(Numbered::Repeat(2))),
            Step::Ask(2, 2, "alice", Err(AskFault::Mismatch(3))),
            Step::Ask(0, u32::MAX, "bob", Ok(Numbered::New(4))),
            Step::Reserve(3),
            Step::Length(4),
            Step::NumberOf(2, 2, Some(3)),
            Step::Shows(3, Some("bob")),
        ],
    );
}

#[test]
fn a_full_log_takes_repeats_alone(rt: HostRuntime) {
    play_steps(
        &rt,
        1,
        &[
            Step::AskMany(1_000_000, "alice"),
            Step::Ask(1, 1_000_000, "alice", Err(AskFault::LogFull)),
            Step::Ask(1, 0, "alice", Ok(Numbered::Repeat(1))),
            Step::Ask(1, 0, "bob", Err(AskFault::Mismatch(1))),
            Step::Length(1_000_000),
            Step::Shows(1_000_000, Some("alice")),
            Step::Shows(1_000_001, None),
        ],
    );
}

// Asks for 40 calls of a sequencer that was opened with room for this many.
fn asks_with_room(rt: &(impl Abort + AllocGlobal), calls: usize) {
    let log = Sequencer::with_capacity(rt.alloc(), 1, calls).expect(rt, "memory for calls");
    let mut log = Box::new(rt.alloc(), log).expect(rt, "memory for a sequencer");
    asks_many(rt, &mut log, 40, "alice");
}

// Room for fewer calls than come, for more than a log takes, and for more than a machine has.
#[test]
fn room_at_the_opening(rt: HostRuntime) {
    asks_with_room(&rt, 2);
    asks_with_room(&rt, 1_500_000);
    assert!(rt; Sequencer::with_capacity(rt.alloc(), 1, usize::MAX).is_err());
}

// The answer to an ask by a plain search of the numbered asks.
fn plain_answer(log: &[(Key, Call)], key: Key, call: Call) -> Result<Numbered, AskFault> {
    for (position, (asked, numbered)) in log.iter().enumerate() {
        if *asked == key {
            let number = position as u64 + 1;
            return if *numbered == call {
                Ok(Numbered::Repeat(number))
            } else {
                Err(AskFault::Mismatch(number))
            };
        }
    }
    Ok(Numbered::New(log.len() as u64 + 1))
}

// Checks that an ask is answered as by the plain search, which appends it if it is new.
fn asks_both(
    rt: &impl Abort,
    log: &mut Sequencer,
    plain: &mut Vec<(Key, Call)>,
    key: Key,
    call: Call,
) {
    let answer = plain_answer(plain, key, call);
    if let Ok(Numbered::New(_)) = answer {
        assert!(rt; plain.push((key, call)).is_ok());
    }
    assert!(rt;
        log.ask(key.client, key.request, &call) == answer,
        "{key:?}"
    );
    assert!(rt; log.length() == plain.len() as u64, "{key:?}");
}

// Checks that the log shows the calls of the plain one, in their order.
fn shows_all(rt: &impl Abort, log: &Sequencer, plain: &[(Key, Call)]) {
    for (position, (_, call)) in plain.iter().enumerate() {
        assert!(rt;
            log.call(position as u64 + 1).copied() == Some(*call),
            "{position}"
        );
    }
}

#[test]
fn answers_as_a_plain_search_does(rt: HostRuntime) {
    let mut log = new_sequencer(&rt, 1);
    let mut plain = Vec::new(rt.alloc());
    let calls = [balance(&rt, "alice"), balance(&rt, "bob")];
    for step in 0..500_u32 {
        let mixed = step * step / 3 + step;
        let key = Key {
            client: mixed % 7,
            request: mixed % 23,
        };
        let call = calls[(mixed % 5 / 4) as usize];
        asks_both(&rt, &mut log, &mut plain, key, call);
    }
    shows_all(&rt, &log, &plain);
}
