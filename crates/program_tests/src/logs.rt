//! Banks on a log, what is listed of it, and what is cut off.
ghost use Rattle.std.specs.Prelude.{None, Some, if◌then◌else◌};

use crate::clients::{Client, Transcript, plain};
use crate::served::{ASKED, GARBAGE, OPENING, TOLD};
use crate::serving::{PLAN, server_to};
use bank_program::{RestFile, cut_log, open_bank_on_log};
use bank_service::{ListFault, ServeFault, find_bank, list_log, serve};
use program_words::{Listing, Plan};
use sb_checkpoint::MemoryStore;
use sb_log::{FaultyFile, LogFile, MemoryFile};
use std::alloc::Global;
use std::io;
use std::io::{ErrorKind, Write};
use std::process::Abort;
use std::sync::Wait;
use std::thread::Threads;
use std::time::Clock;

// The line of the log with the opening alone, and of the one with both asks.
const NONE: &str = "log 0 595dbe6f3bb5264d4281e804c9dd6237b3a412bc4c3c9c66864de7221be29df0\n";

const BOTH: &str = "log 2 dcc9a5d7b14b113ef7fc29f5a7772797163cf36232161f49371e187beb1b1eff\n";

const AFTER: &str = "alice 100.00 50.00\nbob 0.00 25.00\n";

// A file of these bytes.
fn file_of(rt: &impl Abort, alloc: Global, bytes: &[u8]) -> MemoryFile {
    let mut file = MemoryFile::new(alloc);
    file.append(bytes).expect(rt, "a file");
    file
}

// Serves a bank on a file to these clients, and compares what they get and what is printed between
// the port and the rows. Answers the file's bytes.
fn serve_on(
    rt: &(impl Abort + Threads + Wait + Clock + Sync),
    alloc: Global,
    file: MemoryFile,
    input: &[u8],
    clients: &[Client],
    printed: &[&str],
) -> Vec<u8> {
    let all = Transcript::new(alloc);
    let (store, mut notes) = (MemoryStore::new(alloc), Vec::new(alloc));
    let bank = open_bank_on_log(alloc, file, input, store, &mut notes).expect(rt, "a bank");
    assert!(rt; notes.is_empty(), "nothing was cut off");
    let mut written: Vec<u8> = Vec::new(alloc);
    let plan = Plan {
        sessions: clients.len(),
        nodes: 2,
        ..PLAN
    };
    let server = server_to(rt, alloc, clients, &all, bank, plan, &mut written);
    let served = serve(rt, Box::into_inner(server)).expect(rt, "served");
    let bytes = served.primary.keeper().file().bytes();
    let bytes = Vec::from_slice(alloc, bytes).expect(rt, "room");
    drop(served);
    let mut expected: Vec<u8> = Vec::new(alloc);
    for part in printed {
        expected
            .extend_from_slice(part.as_bytes())
            .expect(rt, "room");
    }
    assert!(rt; written.as_slice() == expected.as_slice());
    let told = all.bytes.into_inner();
    assert!(rt; told.as_slice() == TOLD);
    bytes
}

// The file of a bank that was served to a client.
fn kept(rt: &(impl Abort + Threads + Wait + Clock + Sync), alloc: Global) -> Vec<u8> {
    let printed = [
        NONE,
        "listening 127.0.0.1:4000\nsession 1 ok\n",
        BOTH,
        AFTER,
        "total 175.00\n",
    ];
    let file = MemoryFile::new(alloc);
    serve_on(rt, alloc, file, OPENING, &[plain(ASKED)], &printed)
}

#[test]
fn a_bank_goes_on_from_its_log(rt: HostRuntime) {
    let alloc = rt.alloc();
    let before = kept(&rt, alloc);
    let printed = [
        BOTH,
        "listening 127.0.0.1:4000\nsession 1 ok\nsession 2 fault 1\n",
        BOTH,
        AFTER,
        "total 175.00\n",
    ];
    for input in [b"".as_slice(), OPENING, &OPENING[..OPENING.len() - 1]] {
        let file = file_of(&rt, alloc, &before);
        let clients = [plain(ASKED), plain(GARBAGE)];
        let after = serve_on(&rt, alloc, file, input, &clients, &printed);
        // Both asks are repeats.
        assert!(rt; after.as_slice() == before.as_slice());
    }
}

#[test]
fn a_log_of_another_opening(rt: HostRuntime) {
    let alloc = rt.alloc();
    let bytes = kept(&rt, alloc);
    let mut file = file_of(&rt, alloc, &bytes);
    let other = b"alice 100.00 50.00\nbob 0.00 20.01\nbegin\n";
    let found = find_bank(alloc, &mut file, other);
    assert!(rt; found.err() == Some(ServeFault::AnotherOpening));
    assert!(rt; file.bytes() == bytes.as_slice(), "the log stays");
}

#[test]
fn a_torn_rest_is_counted(rt: HostRuntime) {
    let alloc = rt.alloc();
    let bytes = kept(&rt, alloc);
    for torn in [0, 1, 8, 40, 87] {
        let mut file = file_of(&rt, alloc, &bytes);
        file.append(&bytes[..torn.min(bytes.len())])
            .expect(&rt, "memory");
        let found = find_bank(alloc, &mut file, b"").expect(&rt, "a bank's log");
        assert_eq!(rt; found.cut, torn);
        assert!(rt; file.bytes() == bytes.as_slice(), "what is left");
    }
}

// What is listed of a file.
fn listed(
    rt: &impl Abort,
    alloc: Global,
    bytes: &[u8],
    listing: Listing,
) -> (Result<(), ListFault>, Vec<u8>) {
    let mut file = file_of(rt, alloc, bytes);
    let mut written = Vec::new(alloc);
    let done = list_log(alloc, &mut file, listing, &mut written);
    (done, written)
}

#[test]
fn what_is_listed_of_a_log(rt: HostRuntime) {
    let alloc = rt.alloc();
    let bytes = kept(&rt, alloc);
    // Less than its first record.
    let torn = bytes.get(..60).expect(&rt, "60 bytes");
    let asks = "alice 100.00 50.00\nbob 0.00 20.00\nbegin\n\
        ask 7 1 balance alice\nask 7 2 deposit bob 5.00\n";
    let rows = "alice 100.00 50.00\nbob 0.00 25.00\nbegin\n";
    for (listing, text) in [
        (Listing::Asks, asks),
        (Listing::Rows, rows),
        (Listing::Check, BOTH),
    ] {
        let (done, written) = listed(&rt, alloc, &bytes, listing);
        assert!(rt; done.is_ok());
        assert!(rt; written.as_slice() == text.as_bytes());
        let (done, written) = listed(&rt, alloc, torn, listing);
        assert!(rt; done == Err(ListFault::NoLog));
        assert!(rt; written.is_empty());
    }
}

// What of cutting fails: nothing, a write of the rest, its sync, or this call of the log's file.
#[derive(Clone, Copy, PartialEq, Eq)]
enum Failing {
    Nothing,
    Write,
    Sync,
    Call(u64),
}

// What was cut off a log, whether all of it is synced, and what fails.
#[derive(Drop)]
struct Rest {
    bytes: Vec<u8>,
    is_synced: bool,
    failing: Failing,
}

impl Write for Rest {
    ghost contents = { λ rest. Some rest.bytes.items };

    fn write(&mut self, buf: &[u8]) -> io::Result<usize> {
        if self.failing == Failing::Write {
            return Err(io::Error::from(ErrorKind::Other));
        }
        self.is_synced = false;
        self.bytes.write(buf)
    }

    fn flush(&mut self) -> io::Result<()> {
        Ok(())
    }
}

impl RestFile for Rest {
    ghost kept = { λ rest. if rest.is_synced then Some rest.bytes.items else None };

    fn sync(&mut self) -> io::Result<()> {
        if self.failing == Failing::Sync {
            return Err(io::Error::from(ErrorKind::Other));
        }
        self.is_synced = true;
        Ok(())
    }
}

// What cutting a log left.
#[derive(Drop)]
struct CutLog {
    done: Result<(), ListFault>,
    file: MemoryFile,
    rest: Rest,
    printed: Vec<u8>,
}

// Cuts a log with this behind its records. What a crash leaves of the file is in it then.
fn cut(rt: &impl Abort, alloc: Global, log: &[u8], behind: &[u8], failing: Failing) -> CutLog {
    let mut inner = file_of(rt, alloc, log);
    inner.append(behind).expect(rt, "memory");
    let at = match failing {
        Failing::Call(at) => at,
        _ => 0,
    };
    let mut file = FaultyFile::new(inner, at, 0);
    let mut printed = Vec::new(alloc);
    let mut rest = Rest {
        bytes: Vec::new(alloc),
        is_synced: false,
        failing,
    };
    let done = cut_log(alloc, &mut file, &mut rest, &mut printed);
    let mut file = file.into_inner();
    if done.is_ok() {
        file.crash(0);
    }
    CutLog {
        done,
        file,
        rest,
        printed,
    }
}

#[test]
fn what_is_cut_off_a_log(rt: HostRuntime) {
    let alloc = rt.alloc();
    let bytes = kept(&rt, alloc);
    let torn = bytes.get(..8).expect(&rt, "8 bytes");
    let long = vec![in alloc; 1u8; 70_000].expect(&rt, "memory");
    for behind in [b"".as_slice(), torn, b"damage that is no record", &long] {
        let cut = cut(&rt, alloc, &bytes, behind, Failing::Nothing);
        assert!(rt; cut.done.is_ok());
        assert!(rt; cut.file.bytes() == bytes.as_slice(), "the log stays");
        assert!(rt; cut.rest.bytes.as_slice() == behind, "what was behind it");
        assert!(rt; cut.rest.is_synced != behind.is_empty());
        assert!(rt; cut.printed.as_slice() == BOTH.as_bytes());
    }
}

#[test]
fn nothing_is_cut_off_that_is_not_kept(rt: HostRuntime) {
    let alloc = rt.alloc();
    let bytes = kept(&rt, alloc);
    for failing in [Failing::Write, Failing::Sync] {
        let cut = cut(&rt, alloc, &bytes, b"rest", failing);
        assert!(rt; cut.done == Err(ListFault::Rest));
        assert!(rt; cut.file.bytes().strip_prefix(bytes.as_slice()) == Some(b"rest".as_slice()));
        assert!(rt; cut.printed.is_empty());
    }
    // Less than the first record is no log.
    let torn = bytes.get(..60).expect(&rt, "60 bytes");
    let cut = cut(&rt, alloc, torn, b"", Failing::Nothing);
    assert!(rt; cut.done == Err(ListFault::NoLog));
    assert!(rt; cut.file.bytes() == torn && cut.rest.bytes.is_empty() && cut.printed.is_empty());
}

#[test]
fn a_call_of_the_log_fails_as_it_is_cut(rt: HostRuntime) {
    let alloc = rt.alloc();
    let bytes = kept(&rt, alloc);
    for at in 1..30 {
        let cut = cut(&rt, alloc, &bytes, b"rest", Failing::Call(at));
        if cut.done.is_ok() {
            assert!(rt; at > 10, "each call failed once");
            return;
        }
        assert!(rt; cut.printed.is_empty());
        // What isn't in the log is in the other file, and kept there.
        let left = cut.file.bytes().len();
        assert!(rt; left == bytes.len() + 4 || cut.rest.is_synced);
    }
    assert!(rt; false, "it is cut at last");
}
