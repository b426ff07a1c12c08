//! Gates that report how they were called.
ghost use Rattle.std.specs.Prelude.{◌≡◌, true};

use cown_workers::Gate;
use std::sync::atomic::{AtomicBool, AtomicU64, Ordering};
use std::thread;

// How many turns a worker waits for another.
pub(crate) const TURNS: u32 = 1_000_000;

// How many turns a worker waits for one that should not come.
pub(crate) const A_WHILE: u32 = 100_000;

// The first two jobs each wait until the other one is about to be executed. If they were executed
// one after another, the first would wait in vain, and give up.
#[derive(Default, Drop)]
pub(crate) struct Rendezvous {
    first: AtomicBool,
    second: AtomicBool,
    gave_up: AtomicBool,
}

impl Rendezvous {
    // Whether both came, and neither gave up.
    pub(crate) fn took_place(&self) -> bool {
        was(&self.first) && was(&self.second) && !was(&self.gave_up)
    }

    fn comes(&self, here: &AtomicBool, there: &AtomicBool) {
        here.store(true, Ordering::SeqCst);
        if !comes_true(there, TURNS) {
            self.gave_up.store(true, Ordering::SeqCst);
        }
    }
}

impl Gate for Rendezvous {
    fn before(&self, number: u64) {
        match number {
            1 => self.comes(&self.first, &self.second),
            2 => self.comes(&self.second, &self.first),
            _ => {}
        }
    }

    fn after(&self, _number: u64) {}
}

fn was(flag: &AtomicBool) -> bool {
    flag.load(Ordering::SeqCst)
}

// Is called for the jobs numbered from 1 to 4: once before each is executed, and once after that.
#[derive(Default, Drop)]
pub(crate) struct CallOrder {
    // How often it was called for each number. There is no job 0.
    calls: [AtomicU64; 5],
    out_of_turn: AtomicBool,
}

impl CallOrder {
    pub(crate) fn called_in_order(&self) -> bool {
        let calls = self.calls.iter().map(|times| times.load(Ordering::SeqCst));
        calls.eq([0, 2, 2, 2, 2]) && !was(&self.out_of_turn)
    }

    // It was called for this number this often before, and now once more.
    fn count_call(&self, number: u64, before: u64, now: u64) {
        let in_turn = match self.calls.get(number as usize) {
            Some(calls) => calls
                .compare_exchange(before, now, Ordering::SeqCst, Ordering::SeqCst)
                .is_ok(),
            None => false,
        };
        if !in_turn {
            self.out_of_turn.store(true, Ordering::SeqCst);
        }
    }
}

impl Gate for CallOrder {
    fn before(&self, number: u64) {
        self.count_call(number, 0, 1);
    }

    fn after(&self, number: u64) {
        self.count_call(number, 1, 2);
    }
}

// Another gate, except that the owner comes through it too.
#[derive(Clone, Copy)]
pub(crate) struct OwnerAdmittingGate<'a, G>(pub(crate) &'a G);

impl<'a, G: Gate> Gate for OwnerAdmittingGate<'a, G> {
    ghost admits = { λ gate. true };

    fn admits_owner(&self) -> bool {
        true
    }

    fn before(&self, number: u64) {
        self.0.before(number);
    }

    fn after(&self, number: u64) {
        self.0.after(number);
    }
}

// Holds each job until this many have come, or for this many turns.
#[derive(Drop)]
pub(crate) struct Barrier {
    wanted: u64,
    turns: u32,
    came: AtomicU64,
    gave_up: AtomicBool,
}

impl Barrier {
    pub(crate) fn of(wanted: u64, turns: u32) -> Barrier {
        Barrier {
            wanted,
            turns,
            came: AtomicU64::new(0),
            gave_up: AtomicBool::new(false),
        }
    }

    // Whether this many were there at once, each in a thread of its own, since none went on before.
    pub(crate) fn gathered(&self) -> bool {
        self.is_here() && !was(&self.gave_up)
    }

    fn is_here(&self) -> bool {
        self.came.load(Ordering::SeqCst) >= self.wanted
    }
}

impl Gate for Barrier {
    fn before(&self, _number: u64) {
        self.came.fetch_add(1, Ordering::SeqCst);
        for _ in 0..self.turns {
            if self.is_here() {
                return;
            }
            thread::yield_now();
        }
        self.gave_up.store(true, Ordering::SeqCst);
    }

    fn after(&self, _number: u64) {}
}

// Holds the second job until the owner opens it. It holds the first one for a while, in which the
// second would come if there were a thread for it.
#[derive(Default, Drop)]
pub(crate) struct SecondJobLatch {
    first: AtomicBool,
    second: AtomicBool,
    open: AtomicBool,
    gave_up: AtomicBool,
}

impl SecondJobLatch {
    // Waits until the first job is held.
    pub(crate) fn has_the_first(&self) -> bool {
        comes_true(&self.first, TURNS)
    }

    pub(crate) fn opens(&self) {
        self.open.store(true, Ordering::SeqCst);
    }

    // Whether the second job came before the gate was open, and was held in vain.
    pub(crate) fn gave_up(&self) -> bool {
        was(&self.gave_up)
    }
}

impl Gate for SecondJobLatch {
    fn before(&self, number: u64) {
        if number == 1 {
            self.first.store(true, Ordering::SeqCst);
            let _ = comes_true(&self.second, A_WHILE);
        } else {
            self.second.store(true, Ordering::SeqCst);
            if !comes_true(&self.open, TURNS) {
                self.gave_up.store(true, Ordering::SeqCst);
            }
        }
    }

    fn after(&self, _number: u64) {}
}

// Waits for a flag, for this many turns, and answers whether it was set.
fn comes_true(flag: &AtomicBool, turns: u32) -> bool {
    for _ in 0..turns {
        if was(flag) {
            return true;
        }
        thread::yield_now();
    }
    false
}

// Counts the jobs that were executed.
#[derive(Default, Drop)]
pub(crate) struct Counter {
    carried_out: AtomicU64,
}

impl Counter {
    pub(crate) fn carried_out(&self) -> u64 {
        self.carried_out.load(Ordering::SeqCst)
    }

    // Waits until this many were executed.
    pub(crate) fn comes_to(&self, count: u64) -> bool {
        for _ in 0..TURNS {
            if self.carried_out() >= count {
                return true;
            }
            thread::yield_now();
        }
        false
    }
}

impl Gate for Counter {
    fn before(&self, _number: u64) {}

    fn after(&self, _number: u64) {
        self.carried_out.fetch_add(1, Ordering::SeqCst);
    }
}
