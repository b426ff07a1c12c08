//! What crashes leave of a log in a file in memory.
ghost use Rattle.sb_ask_log.specs.MemoryLog.{HasAsks};

use sb_ask_log::MemoryLog;
use sb_calls::{Call, Key, LOG_CALLS};
use sb_rows::Name;
use sb_sequencer::{Numbered, Sequencer};
use std::alloc::Global;
use std::process::Abort;

const CLIENT: u32 = 7;

// A log of no ask, with its sequencer.
fn opened(rt: &impl Abort, alloc: Global) -> (Box<MemoryLog>, Box<Sequencer>)
    ensures { HasAsks result.0.value result.1.value.log }
{
    let log = MemoryLog::new(alloc).expect(rt, "memory");
    let log = Box::new(alloc, log).expect(rt, "memory");
    let asks = Box::new(alloc, Sequencer::open(alloc, 1));
    (log, asks.expect(rt, "memory"))
}

// Numbers a request and appends it.
fn put(rt: &impl Abort, log: &mut MemoryLog, asks: &mut Sequencer, request: u32)
    ensures { HasAsks log.old asks.old.log → HasAsks log.new asks.new.log }
{
    let call = Call::Balance(Name::new(b"alice").expect(rt, "a name"));
    assert!(rt; log.reserve().is_ok(), "memory");
    match asks.ask(CLIENT, request, &call) {
        Ok(Numbered::New(_)) => {
            // The log is valid: each key has one number.
            prove!(asks.length() <= LOG_CALLS as u64);
            let key = Key {
                client: CLIENT,
                request,
            };
            log.append_reserved(key, &call);
        }
        _ => assert!(rt; false, "a new request"),
    }
}

// Whether a log has the requests 1, 2 and so on, this many of them.
fn has_first(asks: &Sequencer, count: u64) -> bool {
    for number in 1..4 {
        let found = match asks.ask_of(number) {
            Some((key, _)) => key.client == CLIENT && key.request as u64 == number,
            None => false,
        };
        if found != (number <= count) {
            return false;
        }
    }
    asks.length() == count
}

// A crash leaves this many asks.
fn leaves(
    rt: &impl Abort,
    alloc: Global,
    log: &MemoryLog,
    asks: &Sequencer,
    kept: u64,
    count: u64,
) -> (Box<MemoryLog>, Box<Sequencer>)
    requires { HasAsks log.now asks.now.log }
    ensures { HasAsks result.0.value result.1.value.log }
{
    let (left, read) = log.crashed(alloc, asks, kept).expect(rt, "memory");
    assert!(rt; left.synced() == count, "the synced asks after {kept}");
    assert!(rt; has_first(&read, count), "the asks after {kept}");
    (Box::new(alloc, left).expect(rt, "memory"), read)
}

#[test]
fn a_crash_leaves_a_beginning(rt: HostRuntime) {
    let alloc = rt.alloc();
    let (mut log, mut asks) = opened(&rt, alloc);
    put(&rt, &mut log, &mut asks, 1);
    log.sync(&asks);
    put(&rt, &mut log, &mut asks, 2);
    put(&rt, &mut log, &mut asks, 3);
    assert!(rt; log.synced() == 1);
    for (kept, count) in [(0, 1), (1, 1), (2, 2), (3, 3), (9, 3)] {
        leaves(&rt, alloc, &log, &asks, kept, count);
    }
    // The log itself goes on.
    log.sync(&asks);
    leaves(&rt, alloc, &log, &asks, 0, 3);
}
