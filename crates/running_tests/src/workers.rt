//! The workers of a crew: how many there are, that the owner isn't one of them, and that they lose
//! nothing.
ghost use Rattle.std.specs.Prelude.{◌≤◌};

use crate::gates::{A_WHILE, Barrier, Counter, SecondJobLatch, TURNS};
use crate::pair::{jobs, jobs_after};
use crate::threads::drained;
use cown_board::Job;
use cown_workers::{Crew, with_crew};
use sb_calls::Op;
use std::alloc::Global;
use std::process::Abort;
use std::sync::Wait;
use std::thread;
use std::thread::Threads;
use std::time::Clock;

#[test]
fn as_many_workers_work_as_are_asked_for(rt: HostRuntime) {
    for workers in [1, 2, 4, 16] {
        assert!(rt;
            gathers(&rt, rt.alloc(), workers, workers, TURNS),
            "{workers}"
        );
    }
}

#[test]
fn no_more_work_than_are_asked_for(rt: HostRuntime) {
    for workers in [1, 2, 4, 16] {
        assert!(rt;
            !gathers(&rt, rt.alloc(), workers, workers + 1, A_WHILE),
            "{workers}"
        );
    }
}

// Whether this many workers have this many jobs out at once, each of which waits this many turns
// for the others.
fn gathers<R: Threads + Wait + Clock + Sync + Abort>(
    rt: &R,
    alloc: Global,
    workers: usize,
    jobs: usize,
    turns: u32,
) -> bool
    requires at_least_one { 1 ≤ workers }
    requires limit { workers ≤ 16 }
    requires jobs { jobs ≤ 17 }
{
    let gate = Barrier::of(jobs as u64, turns);
    let lines = ["balance zed"; 17];
    let _board = drained(rt, alloc, workers, &gate, &lines[..jobs]);
    gate.gathered()
}

// If the owner executed jobs, it would come with the second, and wait for itself.
#[test]
fn an_owner_that_is_not_admitted_opens_its_gate(rt: HostRuntime) {
    let gate = SecondJobLatch::default();
    let ended = with_crew(&rt, rt.alloc(), 1, &gate, |crew| {
        opens_after_the_first(&rt, rt.alloc(), &gate, crew)
    });
    assert!(rt; ended.is_ok());
    assert!(rt; !gate.gave_up());
}

// Gives two jobs, and opens the gate for the second once the first was handed over.
fn opens_after_the_first(
    rt: &impl Abort,
    alloc: Global,
    gate: &SecondJobLatch,
    crew: &mut impl Crew,
) {
    for job in jobs(rt, alloc, 2) {
        assert!(rt; crew.give(job).is_ok());
    }
    assert!(rt; gate.has_the_first());
    hands_over(rt, crew, 1);
    gate.opens();
    hands_over(rt, crew, 2);
}

// Checks that what the crew hands over has this number.
fn hands_over(rt: &impl Abort, crew: &mut impl Crew, number: u64) {
    let done = crew.next().expect(rt, "a job that is done");
    assert!(rt; done.number() == number, "{number}");
}

// More jobs than the inbox holds. Two boards spawn half of them each.
const MANY: usize = 1_100;

// One job more than the inbox holds.
const FULL: u64 = 1_041;

#[test]
fn what_a_full_inbox_has_no_room_for_comes_in_later(rt: HostRuntime) {
    let gate = Counter::default();
    let ended = with_crew(&rt, rt.alloc(), 2, &gate, |crew| {
        fills_the_inbox(&rt, rt.alloc(), &gate, crew)
    });
    assert!(rt; ended.is_ok());
}

// Takes nothing in before more is executed than the inbox holds. Then each job comes in once.
fn fills_the_inbox(rt: &impl Abort, alloc: Global, gate: &Counter, crew: &mut impl Crew) {
    let half = MANY / 2;
    give_jobs(rt, crew, jobs_after(rt, alloc, 0, half));
    give_jobs(rt, crew, jobs_after(rt, alloc, half, half));
    assert!(rt; gate.comes_to(FULL));
    takes_each_once(rt, alloc, crew);
}

#[test]
fn all_that_was_laid_out_is_carried_out_before_a_crew_ends(rt: HostRuntime) {
    for workers in [1, 4, 16] {
        let gate = Counter::default();
        let ended = with_crew(&rt, rt.alloc(), workers, &gate, |crew| {
            give_jobs(&rt, crew, jobs(&rt, rt.alloc(), MANY / 2))
        });
        assert!(rt; ended.is_ok());
        assert!(rt; gate.carried_out() == MANY as u64 / 2, "{workers}");
    }
}

fn give_jobs(rt: &impl Abort, crew: &mut impl Crew, jobs: Vec<Job<Op>>) {
    for job in jobs {
        give_patiently(rt, crew, job);
    }
}

// Gives a job again each time it comes back, since the bench may be full for a moment.
fn give_patiently(rt: &impl Abort, crew: &mut impl Crew, job: Job<Op>) {
    let mut job = job;
    for _ in 0..TURNS {
        match crew.give(job) {
            Ok(()) => return,
            Err(back) => job = back,
        }
        thread::yield_now();
    }
    panic!(rt; "the bench stays full");
}

fn takes_each_once(rt: &impl Abort, alloc: Global, crew: &mut impl Crew) {
    let mut seen = Vec::new(alloc);
    seen.resize(MANY + 1, false).expect(rt, "memory");
    for _ in 0..MANY {
        let done = crew.next().expect(rt, "a job that is done");
        let number = done.number();
        let before = seen.get_mut(number as usize).expect(rt, "one of the jobs");
        assert!(rt; !*before, "{number}");
        *before = true;
    }
}
