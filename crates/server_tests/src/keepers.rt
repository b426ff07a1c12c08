//! Sessions whose log is kept, and keepers that fail.
ghost use Rattle.std.specs.Prelude.{None, true};

use crate::bank::{OPENING, expect, joined};
use crate::devices::BytewiseReader;
use crate::wire::{BALANCE, DEPOSIT, DONE, ENTRY, FLUSH, SHOWN, expect_session};
use bank_server::{Primary, SessionFault};
use sb_ask_log::Keeper;
use sb_calls::read_call;
use sb_checkpoint::MemoryStore;
use sb_log::LogFault;
use sb_rows::read_opening;
use sb_sequencer::Sequencer;
use std::alloc::Global;
use std::process::Abort;

// A keeper that fails once it has kept this many logs. It promises nothing, and knows how long the
// last log was.
#[derive(Drop)]
struct CountingKeeper {
    left: u32,
    kept: u64,
    failed: bool,
}

impl Keeper for CountingKeeper {
    ghost model = { record {
      Keeps = λ keeper asks. Unit {0};
      opening = λ keeper. None;
      fails = true;
      has_failed = λ keeper. keeper.failed;
    } };

    fn keep(&mut self, log: &Sequencer) -> Result<(), LogFault> {
        if self.left == 0 {
            self.failed = true;
            return Err(LogFault::Device);
        }
        self.left -= 1;
        self.kept = log.length();
        Ok(())
    }

    fn digest(&self) -> Option<[u8; 32]> {
        None
    }
}

// The bank on a log of these asks, with a keeper that fails once it has kept this many logs.
fn kept_bank(
    rt: &impl Abort,
    alloc: Global,
    calls: &[&str],
    left: u32,
) -> Primary<MemoryStore, CountingKeeper> {
    let mut log = Box::new(alloc, Sequencer::open(alloc, 1)).expect(rt, "memory for a log");
    let mut request = 0u32;
    for line in calls {
        request = request.saturating_add(1);
        let call = read_call(line.as_bytes()).expect(rt, "a call");
        log.ask(7, request, &call).expect(rt, "a number");
    }
    let opening = read_opening(alloc, OPENING).expect(rt, "an opening");
    let keeper = CountingKeeper {
        left,
        kept: 0,
        failed: false,
    };
    Primary::on_log(alloc, opening, MemoryStore::new(alloc), log, keeper).expect(rt, "a bank")
}

// How many times a log is kept, how a session ends, what is told, and how much of the log was kept last.
type Kept<'a> = (u32, Result<(), SessionFault>, &'a [&'a [u8]], u64);

fn expect_kept(rt: &impl Abort, alloc: Global, sent: &[&[u8]], session: &Kept<'_>) {
    let (left, ends, told, kept) = *session;
    let mut primary = kept_bank(rt, alloc, &[], left);
    let sent = joined(rt, alloc, sent);
    let told = joined(rt, alloc, told);
    // Each flush comes in a read of its own.
    let mut reader = BytewiseReader {
        left: &sent,
        reads: u32::MAX,
        fails: false,
    };
    expect_session(rt, alloc, &mut primary, &mut reader, ends, &told);
    expect(rt, primary.keeper().kept == kept, "what is kept");
}

pub(crate) const UNKEPT: Result<(), SessionFault> = Err(SessionFault::Log(LogFault::Device));

// Two flushes, each after an ask.
const SENT: &[&[u8]] = &[BALANCE, FLUSH, DEPOSIT, FLUSH];

const FLUSHED: &[Kept<'static>] = &[
    (9, Ok(()), &[SHOWN, DONE], 2),
    (2, UNKEPT, &[SHOWN, DONE], 2),
    (1, UNKEPT, &[SHOWN], 1),
    (0, UNKEPT, &[], 0),
];

#[test]
fn a_log_is_kept_before_its_outcomes_are_told(rt: HostRuntime) {
    for session in FLUSHED {
        expect_kept(&rt, rt.alloc(), SENT, session);
    }
}

// Two asks, and then a frame that no client sends.
const CUT_SHORT: &[&[u8]] = &[BALANCE, DEPOSIT, ENTRY];

// The log is kept as the client ends, and once more, when nothing is left to be kept.
const UNFLUSHED: &[Kept<'static>] = &[
    (2, Err(SessionFault::Unexpected), &[], 2),
    (1, UNKEPT, &[], 2),
    (0, UNKEPT, &[], 0),
];

#[test]
fn asks_before_a_fault_of_the_client_are_kept(rt: HostRuntime) {
    for session in UNFLUSHED {
        expect_kept(&rt, rt.alloc(), CUT_SHORT, session);
    }
}

#[test]
fn a_bank_goes_on_from_its_log(rt: HostRuntime) {
    let alloc = rt.alloc();
    let calls = &["balance alice", "deposit bob 5.00"];
    let mut primary = kept_bank(&rt, alloc, calls, 9);
    let sent = joined(&rt, alloc, &[BALANCE, DEPOSIT, FLUSH]);
    let told = joined(&rt, alloc, &[SHOWN, DONE]);
    let reader = &mut sent.as_slice();
    expect_session(&rt, alloc, &mut primary, reader, Ok(()), &told);
    expect(&rt, primary.log().length() == 2, "the log");
}
