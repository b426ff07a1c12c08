//! The owner's side of the bench and of the channel: it lays out jobs, and takes in results.
ghost use Rattle.std.specs.Prelude.{◌≡◌, [], ◌∷◌, ◌++◌, replicate};

use crate::waiting::inbox::Inbox;
use crate::waiting::wake_up::WakeUp;
use cown_bench::{Bench, OwnerPass, WORKERS, Work};
use cown_board::Done;
use crossbeam_channel::TryRecvError;
use sb_calls::Op;
use std::sync::Wait;
use std::thread;
use std::time::Clock;

// What an owner and its workers share, as the owner has it.
#[derive(Drop)]
pub(crate) struct OwnerSide<'a, R: Wait + Clock> {
    pub(crate) rt: &'a R,
    pub(crate) bench: &'a Bench,
    pub(crate) wake_up: &'a WakeUp,
    pub(crate) pass: OwnerPass,
    pub(crate) inbox: Inbox,
}

impl<'a, R: Wait + Clock> OwnerSide<'a, R> {
    // The next result of a worker, or `None` if all are gone.
    pub(crate) fn next_result(&mut self, jobs: usize) -> Option<Done<Op>>
        ensures pass { self.new.pass ≡ self.old.pass }
        ensures bench { self.new.bench.now ≡ self.old.bench.now }
    {
        await_result(self.rt, &mut self.inbox, self.wake_up, jobs)
    }

    // Offers a `Stop` for each of this many workers, and waits until all have ended.
    pub(crate) fn stop_workers(mut self, workers: usize) -> OwnerPass
        requires { self.pass.bench ≡ self.bench.now }
        ensures { result ≡ record self.entry.pass {
          offered = self.entry.pass.offered ++ replicate workers Work.Stop;
        } }
    {
        for _ in 0..workers {
            self.offer_stop();
        }
        self.await_workers();
        let OwnerSide { pass, .. } = self;
        pass
    }

    // Each worker has an end of the channel, so nothing more comes once all have ended.
    fn await_workers(&mut self)
        ensures { self.new.pass ≡ self.old.pass }
    {
        let rt = self.rt;
        for _ in rt.forever() {
            if self.inbox.next(rt).is_none() {
                return;
            }
        }
        unreachable!()
    }

    // If the bench is full, results are taken in, so that no worker waits for room in the channel.
    fn offer_stop(&mut self)
        requires { self.old.pass.bench ≡ self.old.bench.now }
        ensures pass { self.new.pass ≡ record self.old.pass {
          offered = self.old.pass.offered ++ Work.Stop ∷ [];
        } }
        ensures bench { self.new.bench.now ≡ self.old.bench.now }
    {
        for _ in self.rt.forever() {
            if self
                .bench
                .offer(self.rt, &mut self.pass, Work::Stop)
                .is_ok()
            {
                let _ = self.wake_up.signal(self.rt, usize::MAX);
                return;
            }
            let _ = self.inbox.try_recv(self.rt);
            thread::yield_now();
        }
        unreachable!()
    }
}

// The next result of a worker, or `None` if all are gone. Each time that none comes soon, it wakes
// one more worker, until as many are awake as there are jobs with the crew. Then it sleeps.
fn await_result<R: Wait>(
    rt: &R,
    inbox: &mut Inbox,
    wake_up: &WakeUp,
    jobs: usize,
) -> Option<Done<Op>> {
    for _ in 0..=WORKERS {
        match inbox.look_out(rt) {
            Err(TryRecvError::Empty) => {}
            looked => return looked.ok(),
        }
        if !wake_up.signal(rt, jobs) {
            break;
        }
    }
    inbox.next(rt)
}
