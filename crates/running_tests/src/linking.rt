//! Random steps on a board, compared with a plain one: jobs go one at a time, and then in any order.
use crate::bank::{Bank, Step};
use sb_calls::Reply;
use std::alloc::Global;
use std::process::Abort;

// The calls that a schedule submits. Each has the cowns that it declares as bits: two for each of
// the three, savings first.
const CALLS: [(&str, u8); 6] = [
    ("deposit alice 0.01", 0b00_00_10),
    ("deposit bob 0.01", 0b00_10_00),
    ("savings bob 0.01", 0b00_01_00),
    ("amalgamate alice bob", 0b00_10_11),
    ("deposit carol 0.01", 0b10_00_00),
    ("savings zed 0.01", 0),
];

// The state of a call in a schedule.
#[derive(Clone, Copy, PartialEq, Eq)]
enum CallState {
    Waiting,
    Out,
    Finished,
}

// A call in a schedule, and its state.
#[derive(Clone, Copy)]
struct Entry {
    line: &'static str,
    cowns: u8,
    state: CallState,
}

impl Entry {
    fn reply(&self) -> Reply {
        if self.cowns == 0 {
            Reply::NoCustomer
        } else {
            Reply::Done
        }
    }
}

// The number that has this many ready ones before it: each that waits is compared with all
// unfinished ones before it.
fn ready_at(entries: &[Entry], index: usize) -> Option<u64> {
    let mut taken_cowns = 0;
    let mut before = index;
    for (entry, number) in entries.iter().zip(1..) {
        if entry.state == CallState::Waiting && entry.cowns & taken_cowns == 0 {
            if before == 0 {
                return Some(number);
            }
            before -= 1;
        }
        if entry.state != CallState::Finished {
            taken_cowns |= entry.cowns;
        }
    }
    None
}

// The number that is out and has this many others before it that are out, counted round.
fn out_at(entries: &[Entry], index: usize) -> Option<u64> {
    let out = entries
        .iter()
        .filter(|entry| entry.state == CallState::Out)
        .count();
    let mut before = index.checked_rem(out)?;
    for (entry, number) in entries.iter().zip(1..) {
        if entry.state == CallState::Out {
            if before == 0 {
                return Some(number);
            }
            before -= 1;
        }
    }
    None
}

// A board, and a plain one with the same calls.
#[derive(Drop)]
struct BoardAndModel {
    bank: Box<Bank>,
    entries: Vec<Entry>,
}

impl BoardAndModel {
    fn open(rt: &impl Abort, alloc: Global) -> Box<BoardAndModel> {
        let both = BoardAndModel {
            bank: Bank::open(rt, alloc),
            entries: Vec::new(alloc),
        };
        Box::new(alloc, both).expect(rt, "memory")
    }

    fn submit(&mut self, rt: &impl Abort, kind: usize) {
        let (line, cowns) = *CALLS.get(kind).expect(rt, "a kind of call");
        let entry = Entry {
            line,
            cowns,
            state: CallState::Waiting,
        };
        self.entries.push(entry).expect(rt, "memory");
        let number = self.entries.len() as u64;
        self.bank.plays(rt, &[Step::Submit(number, line)]);
    }

    // Both hand out the same one, or none.
    fn take(&mut self, rt: &impl Abort, index: usize) {
        match ready_at(&self.entries, index) {
            Some(number) => {
                self.bank.plays(rt, &[Step::Take(index, number)]);
                self.moves(rt, number, CallState::Out);
            }
            None => self.bank.plays(rt, &[Step::TakeNone(index)]),
        }
    }

    // One of those that are out is finished, if there is one.
    fn finish(&mut self, rt: &impl Abort, index: usize) {
        let Some(number) = out_at(&self.entries, index) else {
            return;
        };
        let reply = self.moves(rt, number, CallState::Finished);
        self.bank.plays(rt, &[Step::Finish(number, reply)]);
    }

    fn moves(&mut self, rt: &impl Abort, number: u64, state: CallState) -> Reply {
        let index = number.checked_sub(1).expect(rt, "a number") as usize;
        let entry = self
            .entries
            .get_mut(index)
            .expect(rt, "a number of the log");
        entry.state = state;
        entry.reply()
    }

    // The step that these bits choose: while jobs go one at a time, what is handed out comes back
    // at once.
    fn step(&mut self, rt: &impl Abort, bits: u64, one_at_a_time: bool) {
        let index = (bits >> 8 & 3) as usize;
        match bits & 3 {
            0 | 1 => self.submit(rt, (bits >> 2 & 63) as usize % 6),
            2 if one_at_a_time => {
                self.take(rt, 0);
                self.finish(rt, 0);
            }
            2 => self.take(rt, index),
            _ => self.finish(rt, index),
        }
    }
}

// Jobs go one at a time for this many steps, and then in any order.
fn plays_both(rt: &impl Abort, both: &mut BoardAndModel, seed: u64, alone: u64) {
    for step in 0..200_u64 {
        let mixed = (seed << 8 | step).wrapping_mul(0x9e37_79b9_7f4a_7c15);
        let bits = (mixed ^ mixed >> 29).wrapping_mul(0xbf58_476d_1ce4_e5b9) >> 40;
        both.step(rt, bits, step < alone);
    }
}

// Everything that is left is run one after another, and the columns are those of a plain run of
// the log.
fn ends_as_one_worker_does(rt: &impl Abort, alloc: Global, both: &mut BoardAndModel) {
    let mut alone = Bank::open(rt, alloc);
    for (entry, number) in both.entries.iter().zip(1..) {
        let steps = [
            Step::Submit(number, entry.line),
            Step::Run(number, entry.reply()),
        ];
        alone.plays(rt, &steps);
    }
    for _ in 0..both.entries.len() {
        both.finish(rt, 0);
    }
    for _ in 0..both.entries.len() {
        both.take(rt, 0);
        both.finish(rt, 0);
    }
    both.bank.cuts(rt);
    both.bank.has_cut_of(rt, &alone);
}

#[test]
fn whatever_is_asked_a_plain_board_says_the_same(rt: HostRuntime) {
    for seed in 0..40 {
        let mut both = BoardAndModel::open(&rt, rt.alloc());
        plays_both(&rt, &mut both, seed, seed * 5);
        ends_as_one_worker_does(&rt, rt.alloc(), &mut both);
    }
}
