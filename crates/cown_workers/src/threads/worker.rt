//! The work of each thread of a crew.
ghost use Rattle.std.specs.Prelude.{◌≡◌, IfNone, IfSome};
ghost use Rattle.cown_bench.specs.BenchPasses.{PicksWork};
ghost use Rattle.cown_workers.specs.inner.PassPicks.{EndsAtStop};
ghost use Rattle.cown_workers.specs.inner.Turns.{WorkerTakesTurn};

use crate::gate::{Gate, run_at_gate};
use crate::waiting::back_off::BackOff;
use crate::waiting::inbox::{Outbox, Receipt};
use crate::waiting::wake_up::WakeUp;
use cown_bench::{Bench, Work, WorkerPass};
use cown_board::{Done, Job};
use sb_calls::Op;
use std::sync::Wait;
use std::thread;
use std::time::Clock;

// A worker: it picks jobs from a bench, executes them, and hands over the results.
#[derive(Drop)]
pub(crate) struct Worker<'a, R: Wait + Clock, G: Gate> {
    pub(crate) rt: &'a R,
    pub(crate) bench: &'a Bench,
    pub(crate) pass: WorkerPass,
    pub(crate) gate: &'a G,
    pub(crate) wake_up: &'a WakeUp,
    pub(crate) outbox: Outbox,
    pub(crate) ghost of_the_bench: { pass.bench ≡ bench.now },
}

// What a worker did in one turn.
#[derive(Drop)]
pub(crate) enum Turn {
    // It picked nothing.
    Waited,
    // It picked a job, executed it and handed its result over.
    HandedOver(Receipt),
    // It picked a `Stop`.
    Stopped,
}

impl<'a, R: Wait + Clock, G: Gate> Worker<'a, R, G> {
    // Works until it picks a `Stop`. Then it returns its pass.
    pub(crate) fn work(mut self) -> WorkerPass
        ensures bench { result.bench ≡ self.entry.bench.now }
        ensures stopped { EndsAtStop result.picked }
    {
        let rt = self.rt;
        let mut back_off = BackOff::new();
        for _ in rt.forever() {
            match self.turn(&mut back_off) {
                Turn::Waited => {}
                Turn::HandedOver(_) => back_off.ease(),
                Turn::Stopped => {
                    let Worker { pass, .. } = self;
                    return pass;
                }
            }
        }
        unreachable!()
    }

    // One turn. No job that it picks is dropped.
    fn turn(&mut self, back_off: &mut BackOff) -> Turn
        ensures takes { WorkerTakesTurn self.old.pass result self.new.pass }
        ensures bench { self.new.bench.now ≡ self.old.bench.now }
    {
        match pick_or_wait(self.rt, self.bench, &mut self.pass, self.wake_up, back_off) {
            Some(Work::Run(job)) => {
                let sent = run_and_hand_over(self.rt, self.gate, &mut self.outbox, job);
                Turn::HandedOver(sent)
            }
            Some(Work::Stop) => Turn::Stopped,
            None => Turn::Waited,
        }
    }
}

// Picks the first Work on the bench. If there is none, it waits, longer each time, and in the end
// until the owner signals. Then it picks nothing, or what was offered meanwhile.
fn pick_or_wait<R: Wait + Clock>(
    rt: &R,
    bench: &Bench,
    pass: &mut WorkerPass,
    wake_up: &WakeUp,
    back_off: &mut BackOff,
) -> Option<Work>
    requires { pass.old.bench ≡ bench.now }
    ensures work_picked { IfSome result (λ work. PicksWork pass.old work pass.new) }
    ensures nothing_picked { IfNone result (pass.new ≡ pass.old) }
{
    let work = bench.pick(rt, pass);
    if work.is_some() {
        return work;
    }
    if back_off.is_over() {
        return wake_up.pick_or_sleep(rt, bench, pass, back_off);
    }
    back_off.wait_longer(rt);
    None
}

// Executes a job, and hands its result over.
fn run_and_hand_over<R: Wait, G: Gate>(
    rt: &R,
    gate: &G,
    outbox: &mut Outbox,
    job: Job<Op>,
) -> Receipt
    ensures { result.number ≡ job.number }
{
    hand_over(rt, outbox, run_at_gate(gate, job))
}

// Sends a result. While it is refused, it tries again.
fn hand_over<R: Wait>(rt: &R, outbox: &mut Outbox, done: Done<Op>) -> Receipt
    ensures { result.number ≡ done.number }
{
    let mut unsent = done;
    for _ in rt.forever() {
        match outbox.send_result(rt, unsent) {
            Ok(sent) => return sent,
            Err(refused) => unsent = refused,
        }
        thread::yield_now();
    }
    unreachable!()
}
