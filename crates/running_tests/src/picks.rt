//! What is offered on a bench, picked from it, and left on it.
use crate::pair::{Pair, are_jobs, close, jobs};
use cown_bench::Work;
use std::alloc::Global;
use std::process::Abort;
use std::sync::Wait;

#[test]
fn two_workers_pick_in_turn(rt: HostRuntime) {
    let mut pair = Pair::new(&rt, rt.alloc());
    pair.offers_jobs(&rt, rt.alloc(), 3);
    pair.first_picks(&rt, 1);
    pair.second_picks(&rt, 2);
    pair.first_picks(&rt, 3);
    pair.second_picks_nothing(&rt);
    assert!(rt; close(&rt, rt.alloc(), pair).is_empty());
}

#[test]
fn a_thousand_and_forty_may_lie_there(rt: HostRuntime) {
    let mut pair = Pair::new(&rt, rt.alloc());
    offers_one_more_than_fits(&rt, rt.alloc(), &mut pair);
    let left = close(&rt, rt.alloc(), pair);
    assert!(rt; left.len() == 1_040);
    assert!(rt; are_jobs(&left.as_slice()[1_039..], &[2]));
}

// Before the first is picked there is no room for the second.
fn offers_one_more_than_fits<R: Wait + Abort>(rt: &R, alloc: Global, pair: &mut Pair) {
    pair.offers_jobs(rt, alloc, 1);
    for _ in 1..1_040 {
        pair.offers(rt, Work::Stop);
    }
    let second = jobs(rt, alloc, 2).pop().expect(rt, "a job");
    let second = pair.gives_back(rt, second, 2);
    pair.first_picks(rt, 1);
    pair.offers(rt, Work::Run(second));
}
