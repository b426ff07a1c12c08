//! A bench with two workers, whose passes are known to be of it, so that it allows each call in the
//! tests.
ghost use Rattle.std.specs.Prelude.{◌≡◌};

use crate::bank::{OPENING, earlier_replies, open_board};
use cown_bench::{Bench, OwnerPass, Work, WorkerPass};
use cown_board::Job;
use sb_calls::Op;
use std::alloc::Global;
use std::marker::Model;
use std::process::Abort;
use std::sync::Wait;

#[derive(Drop)]
pub(crate) struct Pair {
    bench: Bench,
    owner: OwnerPass,
    first: WorkerPass,
    second: WorkerPass,
}

impl Model for Pair {
    ghost use Rattle.std.specs.Prelude.{◌≡◌};
    ghost use Rattle.cown_bench.specs.BenchPasses.{BenchId};

    ghost Value = { BenchId };

    ghost view = { λ p. p.bench };

    ghost invariant = { λ p. ((p.owner.bench ≡ p.bench) × (p.owner.workers ≡ 2)) ×
        ((p.first.bench ≡ p.bench) × (p.second.bench ≡ p.bench)) };
}

impl Pair {
    pub(crate) fn new(rt: &impl Abort, alloc: Global) -> Box<Pair> {
        let (bench, owner, mut workers) = Bench::new(alloc, 2).expect(rt, "memory");
        let second = workers.pop().expect(rt, "a worker");
        let first = workers.pop().expect(rt, "a worker");
        let pair = Pair {
            bench,
            owner,
            first,
            second,
        };
        Box::new(alloc, pair).expect(rt, "memory")
    }

    fn offer<R: Wait>(&mut self, rt: &R, work: Work) -> Result<(), Work> {
        self.bench.offer(rt, &mut self.owner, work)
    }

    pub(crate) fn offers<R: Wait + Abort>(&mut self, rt: &R, work: Work) {
        assert!(rt; self.offer(rt, work).is_ok());
    }

    // Offers this many jobs, numbered from 1.
    pub(crate) fn offers_jobs<R: Wait + Abort>(&mut self, rt: &R, alloc: Global, count: usize) {
        for job in jobs(rt, alloc, count) {
            self.offers(rt, Work::Run(job));
        }
    }

    // The bench is full, and the job comes back. It has this number.
    pub(crate) fn gives_back<R: Wait + Abort>(
        &mut self,
        rt: &R,
        job: Job<Op>,
        number: u64,
    ) -> Job<Op> {
        match self.offer(rt, Work::Run(job)) {
            Err(Work::Run(back)) => {
                assert!(rt; back.number() == number);
                back
            }
            Err(Work::Stop) => panic!(rt; "another comes back"),
            Ok(()) => panic!(rt; "there was room"),
        }
    }

    // The first worker picks the job with this number.
    pub(crate) fn first_picks<R: Wait + Abort>(&mut self, rt: &R, number: u64) {
        let work = self.bench.pick(rt, &mut self.first);
        assert!(rt; is_job(&work.expect(rt, "a job"), number), "{number}");
    }

    pub(crate) fn second_picks<R: Wait + Abort>(&mut self, rt: &R, number: u64) {
        let work = self.bench.pick(rt, &mut self.second);
        assert!(rt; is_job(&work.expect(rt, "a job"), number), "{number}");
    }

    pub(crate) fn second_picks_nothing<R: Wait + Abort>(&mut self, rt: &R) {
        assert!(rt; self.bench.pick(rt, &mut self.second).is_none());
    }
}

// What nobody picked, once the bench is closed.
pub(crate) fn close<R: Wait + Abort>(rt: &R, alloc: Global, pair: Box<Pair>) -> Vec<Work> {
    let Pair {
        bench,
        owner,
        first,
        second,
    } = Box::into_inner(pair);
    let mut workers = Vec::with_capacity(alloc, 2).expect(rt, "memory");
    workers.push_reserved(first);
    workers.push_reserved(second);
    bench.close(rt, owner, workers)
}

// This many jobs, numbered from 1, of behaviours that declare no cown: all are ready at once.
pub(crate) fn jobs(rt: &impl Abort, alloc: Global, count: usize) -> Vec<Job<Op>> {
    jobs_after(rt, alloc, 0, count)
}

// This many of these jobs, whose numbers come after this one.
pub(crate) fn jobs_after(
    rt: &impl Abort,
    alloc: Global,
    number: usize,
    count: usize,
) -> Vec<Job<Op>> {
    let replies = earlier_replies(rt, alloc, number);
    let (mut board, _) = open_board(rt, alloc, OPENING, replies);
    let mut jobs = Vec::new(alloc);
    for _ in 0..count {
        assert!(rt; board.submit(Op::NoCustomer).is_ok());
        let job = board.take_at(0).expect(rt, "a ready one");
        jobs.push(job).expect(rt, "memory");
    }
    jobs
}

// Whether the work is the job with this number.
fn is_job(work: &Work, number: u64) -> bool {
    match work {
        Work::Run(job) => job.number() == number,
        Work::Stop => false,
    }
}

// Whether the rest are jobs with these numbers.
pub(crate) fn are_jobs(left: &[Work], numbers: &[u64]) -> bool {
    let mut both = left.iter().zip(numbers);
    left.len() == numbers.len() && both.all(|(work, number)| is_job(work, *number))
}
