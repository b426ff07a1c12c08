//! The numbers that wait at each cown, and the fronts as plain lists have them.
ghost use Rattle.std.specs.Prelude.{◌≤◌, length, IsTrue};
ghost use Rattle.sb_calls.specs.Cowns.{AreBelow, IsRising};
ghost use Rattle.cown_queue.specs.Queues.{IsInFront};

use arrayvec::ArrayVec;
use cown_queue::Queues;
use sb_calls::Cown;
use std::alloc::Global;
use std::process::Abort;

// Whether a behaviour may declare these cowns: at most three, in rising order, all of the first
// `bound`.
fn may_declare(cowns: &[Cown], bound: usize) -> bool
    ensures limit { IsTrue result → length cowns.now ≤ 3 }
    ensures rising { IsTrue result → IsRising cowns.now }
    ensures below { IsTrue result → AreBelow bound cowns.now }
{
    let mut least = 0;
    for cown in cowns {
        let id = cown.id();
        if id < least || id >= bound {
            return false;
        }
        least = id + 1;
    }
    cowns.len() <= 3
}

// Whether a number is in front at each of these cowns.
fn is_in_front(queues: &Queues, number: u64, cowns: &[Cown]) -> bool
    ensures { IsTrue result → IsInFront number cowns.now queues.now.lists }
{
    for cown in cowns {
        match queues.front(*cown) {
            Some(front) if front == number => {}
            _ => return false,
        }
    }
    true
}

fn spawn(rt: &impl Abort, queues: &mut Queues, number: u64, cowns: &[Cown]) {
    assert!(rt; may_declare(cowns, queues.cowns()), "cowns of {number}");
    queues.reserve(cowns).expect(rt, "memory");
    queues.append(number, cowns);
}

fn finish(rt: &impl Abort, queues: &mut Queues, number: u64, cowns: &[Cown]) -> ArrayVec<u64, 3> {
    assert!(rt; may_declare(cowns, queues.cowns()), "cowns of {number}");
    assert!(rt; is_in_front(queues, number, cowns), "{number} waits");
    queues.release(number, cowns)
}

// Finishes a number, and checks the fronts afterwards.
fn finishes(rt: &impl Abort, queues: &mut Queues, number: u64, cowns: &[Cown], fronts: &[u64]) {
    let found = finish(rt, queues, number, cowns);
    assert!(rt; found.as_slice() == fronts, "{number}");
}

// Queues for this many cowns.
fn open(rt: &impl Abort, alloc: Global, cowns: usize) -> Box<Queues> {
    let queues = Queues::open(alloc, cowns).expect(rt, "memory");
    assert!(rt; queues.cowns() == cowns);
    Box::new(alloc, queues).expect(rt, "memory")
}

// A cown that only this number of a thousand declares, and the last one of 131,072, which all do.
fn own_and_last(number: u64) -> [Cown; 2]
    requires { number ≤ 1000 }
{
    [Cown::new(131 * number as usize), Cown::new(131_071)]
}

// As many cowns as the greatest bank has.
#[test]
fn each_of_131072_cowns_has_a_queue(rt: HostRuntime) {
    let last = Cown::new(131_071);
    let mut queues = open(&rt, rt.alloc(), 131_072);
    for number in 1..=1_000 {
        spawn(&rt, &mut queues, number, &own_and_last(number));
    }
    assert!(rt; queues.front(Cown::new(0)).is_none());
    assert!(rt; queues.front(Cown::new(131_000)) == Some(1_000));
    assert!(rt; queues.front(Cown::new(131_072)).is_none());
    for number in 1..1_000 {
        assert!(rt; queues.front(last) == Some(number));
        finishes(
            &rt,
            &mut queues,
            number,
            &own_and_last(number),
            &[number + 1],
        );
    }
}

// Up to three of five cowns, spread over the numbers.
fn declared(number: u64) -> ArrayVec<Cown, 3> {
    let bits = number.wrapping_mul(0x9e37_79b9_7f4a_7c15) >> 59;
    let mut cowns = ArrayVec::new();
    for place in 0..5 {
        if bits >> place & 1 == 1 && cowns.len() < 3 {
            cowns.push(Cown::new(place));
        }
    }
    cowns
}

// The first of the waiting numbers that declares a cown.
fn first_at(waiting: &[u64], cown: Cown) -> Option<u64> {
    for number in waiting {
        if declared(*number).contains(&cown) {
            return Some(*number);
        }
    }
    None
}

// The last of the waiting numbers that is in front at each of its cowns.
fn last_ready(rt: &impl Abort, queues: &Queues, waiting: &[u64]) -> Option<u64> {
    for number in waiting.iter().rev() {
        let cowns = declared(*number);
        assert!(rt; may_declare(&cowns, queues.cowns()));
        if is_in_front(queues, *number, &cowns) {
            return Some(*number);
        }
    }
    None
}

// The first waiting number at each cown that a number declares, if there is one.
fn wanted_after(rt: &impl Abort, waiting: &[u64], number: u64) -> ArrayVec<u64, 5> {
    let mut wanted = ArrayVec::new();
    for cown in &declared(number) {
        if let Some(front) = first_at(waiting, *cown) {
            assert!(rt; wanted.try_push(front).is_ok());
        }
    }
    wanted
}

// Finishes one number that is ready, and compares the new fronts with the numbers that still wait.
fn finish_one(rt: &impl Abort, queues: &mut Queues, waiting: &mut Vec<u64>) {
    let Some(number) = last_ready(rt, queues, waiting) else {
        assert!(rt; waiting.is_empty(), "none is ready");
        return;
    };
    waiting.retain(|other| *other != number);
    let wanted = wanted_after(rt, waiting, number);
    let fronts = finish(rt, queues, number, &declared(number));
    assert!(rt; fronts.as_slice() == wanted.as_slice(), "{number}");
}

// Checks that the fronts of the five cowns are those of the waiting numbers.
fn fronts_are_first(rt: &impl Abort, queues: &Queues, waiting: &[u64]) {
    for place in 0..5 {
        let cown = Cown::new(place);
        assert!(rt;
            queues.front(cown) == first_at(waiting, cown),
            "cown {place}"
        );
    }
}

#[test]
fn fronts_are_those_of_plain_lists(rt: HostRuntime) {
    let mut queues = open(&rt, rt.alloc(), 5);
    let mut waiting = Vec::new(rt.alloc());
    for number in 1..=10_000 {
        // Up to a hundred wait, then fewer, and then a hundred again.
        if number % 200 >= 99 {
            finish_one(&rt, &mut queues, &mut waiting);
            finish_one(&rt, &mut queues, &mut waiting);
        }
        waiting.push(number).expect(&rt, "memory");
        spawn(&rt, &mut queues, number, &declared(number));
        assert!(rt; waiting.len() <= 100);
        fronts_are_first(&rt, &queues, &waiting);
    }
    // No more than a hundred ever waited, each at three cowns or fewer.
    assert!(rt; queues.places() <= 300);
}
