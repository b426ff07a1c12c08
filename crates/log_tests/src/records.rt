//! The bytes of a file, and what is read of one that crashed, was altered, or whose device failed.
ghost use Rattle.std.specs.Prelude.{◌≤◌, length};

use sb_log::{
    DurableLog, FaultyFile, HEAD, LogEnd, LogFault, LogFile, MemoryFile, Replay, ReplayFault,
    recover,
};
use std::alloc::Global;
use std::process::Abort;

// An opening, and two asks.
const BODIES: [&[u8]; 3] = [
    b"SBLOG001alice 100.00 50.00\nbob 0.00 20.00\ncarol 10.00 0.00\nbegin\n",
    b"\x00\x10\x01\x00\x00\x00\x07\x00\x00\x00\x01\x01\x05alice",
    b"\x00\x16\x01\x00\x00\x00\x07\x00\x00\x00\x02\x02\x03bob\x00\x00\x00\x00\x00\x00\x01\xf4",
];

// What stands before each of them in a file.
const HEADS: [&[u8; HEAD]; 3] = [
    b"\x00\x00\x00\x41\xff\xff\xff\xbe\
      \xed\x61\x63\x31\x4c\x36\xb4\x4c\x24\xd0\x0c\x1a\xd8\xeb\xa3\xbe\
      \x93\xd8\xf2\xf3\xc1\xcd\x4d\xb6\xb6\xfc\x6e\xd0\x05\x45\xd7\x9f",
    b"\x00\x00\x00\x12\xff\xff\xff\xed\
      \xac\x3d\x3b\x5f\xe8\xb5\x5b\xf3\x36\xa7\xd2\xaf\x2e\x69\xfa\xe1\
      \xed\x15\xc2\x71\xa0\x25\x9b\xab\xa5\x75\xde\xa6\x13\x5a\x24\xbc",
    b"\x00\x00\x00\x18\xff\xff\xff\xe7\
      \x54\x65\xdd\x01\xc2\x22\xe1\xce\xf8\xaf\xb0\x9f\xe5\xed\x49\xc2\
      \x95\xc4\x58\x3c\xc3\x9e\xdc\xbb\x82\x6a\xe9\x25\x57\xec\xf1\x86",
];

// Where their records end.
const ENDS: [usize; 3] = [105, 163, 227];

// Joins the bodies that are replayed. One that is `no` is refused.
#[derive(Drop)]
struct Bodies {
    joined: Vec<u8>,
    count: usize,
}

impl Replay for Bodies {
    ghost Replays = { λ old body new. Unit {0} };

    ghost Refuses = { λ old body. Unit {0} };

    fn replay(&mut self, body: &[u8]) -> Result<(), ReplayFault> {
        if body == b"no".as_slice() {
            return Err(ReplayFault::Refused);
        }
        match self.joined.extend_from_slice(body) {
            Ok(()) => {
                self.count = self.count.wrapping_add(1);
                Ok(())
            }
            Err(_) => Err(ReplayFault::OutOfMemory),
        }
    }
}

// No body by now.
fn none(alloc: Global) -> Bodies {
    Bodies {
        joined: Vec::new(alloc),
        count: 0,
    }
}

// Appends a body of at most 1,000 bytes.
fn append<F: LogFile>(
    rt: &impl Abort,
    alloc: Global,
    log: &mut DurableLog<F>,
    body: &[u8],
) -> Result<(), LogFault> {
    let mut buffer = Vec::from_slice(alloc, &[0; HEAD]).expect(rt, "memory");
    let whole = &body[..body.len().min(1_000)];
    buffer.extend_from_slice(whole).expect(rt, "memory");
    log.append(&mut buffer)
}

// The file of the three bodies, synced after this many of them.
fn logged(rt: &impl Abort, alloc: Global, synced: usize) -> MemoryFile {
    let mut log = DurableLog::new(MemoryFile::new(alloc), sha2::Digest::new());
    for (at, body) in BODIES.iter().enumerate() {
        append(rt, alloc, &mut log, body).expect(rt, "an append");
        if at + 1 == synced {
            log.sync().expect(rt, "a sync");
        }
    }
    log.into_file()
}

// The first bodies, joined.
fn first(rt: &impl Abort, alloc: Global, count: usize) -> Vec<u8> {
    let mut joined = Vec::new(alloc);
    for body in BODIES.iter().take(count) {
        joined.extend_from_slice(body).expect(rt, "memory");
    }
    joined
}

// A file of these bytes.
fn file_of(rt: &impl Abort, alloc: Global, bytes: &[u8]) -> MemoryFile {
    let mut file = MemoryFile::new(alloc);
    file.append(bytes).expect(rt, "an append");
    file
}

// Has the records of a file recovered, which are the first bodies, and answers how many, and its end.
fn recovers(rt: &impl Abort, alloc: Global, file: &mut MemoryFile) -> (usize, LogEnd) {
    let mut bodies = none(alloc);
    let end = recover(alloc, file, &mut bodies).expect(rt, "a log");
    let wanted = first(rt, alloc, bodies.count);
    assert!(rt; bodies.joined.as_slice() == wanted.as_slice(), "the bodies");
    (bodies.count, end)
}

// A log goes on in a file that has this many bodies, and then has all of them.
fn goes_on(rt: &impl Abort, alloc: Global, file: MemoryFile, end: LogEnd, count: usize) {
    let mut log = DurableLog::new(file, end.hasher);
    for body in BODIES.iter().skip(count) {
        append(rt, alloc, &mut log, body).expect(rt, "an append");
    }
    assert!(rt; log.digest().as_slice() == &HEADS[2][8..], "the digest");
    assert!(rt;
        log.file().bytes() == logged(rt, alloc, 3).bytes(),
        "the file"
    );
}

// Recovering this file finds damage at a byte, with this many behind it, and leaves it as it is.
fn is_damaged(rt: &impl Abort, alloc: Global, bytes: &[u8], byte: u64, behind: u64) {
    let mut file = file_of(rt, alloc, bytes);
    let found = recover(alloc, &mut file, &mut none(alloc)).err();
    assert!(rt; found == Some(LogFault::Damaged { byte, behind }), "{byte}");
    assert!(rt; file.bytes() == bytes, "the file, damaged at {byte}");
}

#[test]
fn a_file_has_these_bytes(rt: HostRuntime) {
    let alloc = rt.alloc();
    let mut expected = Vec::new(alloc);
    for (head, body) in HEADS.iter().zip(BODIES) {
        expected.extend_from_slice(*head).expect(&rt, "memory");
        expected.extend_from_slice(body).expect(&rt, "memory");
    }
    assert!(rt; logged(&rt, alloc, 3).bytes() == expected.as_slice());
}

// A file whose first bodies, this many, were synced crashes, and keeps at most this many of its bytes.
fn crashes(rt: &impl Abort, alloc: Global, synced: usize, kept: usize) {
    let mut file = logged(rt, alloc, synced);
    file.crash(kept);
    let left = file.bytes().len();
    let whole = ENDS.iter().filter(|end| **end <= left).count();
    let (count, end) = recovers(rt, alloc, &mut file);
    assert!(rt;
        synced <= count && count == whole,
        "{synced} synced, {kept} kept"
    );
    assert!(rt; end.records == file.bytes().len(), "{kept} kept");
    assert!(rt; left.wrapping_sub(end.torn) == end.records, "{kept} kept");
    goes_on(rt, alloc, file, end, count);
}

#[test]
fn a_crash_leaves_whole_bodies_and_the_log_goes_on(rt: HostRuntime) {
    for synced in 0..4 {
        for kept in 0..228 {
            crashes(&rt, rt.alloc(), synced, kept);
        }
    }
}

// So many zeros behind the records are cut off. If a byte follows that is none, they are damage, unless they are
// too few for a record.
fn cuts_zeros(rt: &impl Abort, alloc: Global, zeros: usize) {
    let mut file = logged(rt, alloc, 3);
    for _ in 0..zeros {
        file.append(&[0]).expect(rt, "an append");
    }
    let mut bytes = Vec::from_slice(alloc, file.bytes()).expect(rt, "memory");
    let (count, end) = recovers(rt, alloc, &mut file);
    assert!(rt;
        (count, end.records, end.torn) == (3, 227, zeros),
        "{zeros}"
    );
    assert!(rt; file.bytes() == logged(rt, alloc, 3).bytes(), "{zeros}");
    if zeros >= 8 {
        bytes.push(1).expect(rt, "memory");
        is_damaged(rt, alloc, &bytes, 227, (zeros as u64).wrapping_add(1));
    }
}

#[test]
fn zeros_behind_the_records_are_cut_off(rt: HostRuntime) {
    for zeros in [1usize, 7, 8, 39, 40, 41, 65_536, 65_537, 140_000] {
        cuts_zeros(&rt, rt.alloc(), zeros);
    }
}

#[test]
fn a_body_that_is_refused_is_damage(rt: HostRuntime) {
    let alloc = rt.alloc();
    let mut log = DurableLog::new(MemoryFile::new(alloc), sha2::Digest::new());
    for body in [b"yes".as_slice(), b"no", b"yes"] {
        append(&rt, alloc, &mut log, body).expect(&rt, "an append");
    }
    let mut file = log.into_file();
    let mut bodies = none(alloc);
    let found = recover(alloc, &mut file, &mut bodies).err();
    let damage = LogFault::Damaged {
        byte: 43,
        behind: 85,
    };
    assert!(rt; found == Some(damage));
    assert!(rt; bodies.joined.as_slice() == b"yes".as_slice());
    assert!(rt; file.bytes().len() == 128);
}

// A log whose call with this number fails, an append leaving this many bytes. Each body is synced until then.
fn failing_log(rt: &impl Abort, alloc: Global, at: u64, kept: usize) -> (MemoryFile, usize) {
    let file = FaultyFile::new(MemoryFile::new(alloc), at, kept);
    let mut log = DurableLog::new(file, sha2::Digest::new());
    let mut synced = 0usize;
    for body in BODIES {
        if append(rt, alloc, &mut log, body).is_ok() && log.sync().is_ok() {
            synced = synced.wrapping_add(1);
        }
    }
    // It takes nothing more.
    let more = append(rt, alloc, &mut log, b"more");
    assert!(rt; more == Err(LogFault::Device), "call {at}");
    assert!(rt; log.sync() == Err(LogFault::Device), "call {at}");
    (log.into_file().into_inner(), synced)
}

#[test]
fn what_was_synced_outlives_a_failed_call(rt: HostRuntime) {
    let alloc = rt.alloc();
    for at in 1..7u64 {
        for kept in 0..107usize {
            for left in [0usize, 150, 227] {
                let (mut file, synced) = failing_log(&rt, alloc, at, kept);
                assert!(rt; synced as u64 == (at - 1) / 2, "call {at}");
                file.crash(left);
                let (count, end) = recovers(&rt, alloc, &mut file);
                assert!(rt;
                    synced <= count && count <= synced.wrapping_add(1),
                    "call {at}"
                );
                goes_on(&rt, alloc, file, end, count);
            }
        }
    }
}

// Recovers the three bodies and a torn rest from a file whose call with this number fails, an append leaving so
// many bytes, and then once more. Answers whether it failed first.
fn recovers_again(rt: &impl Abort, alloc: Global, at: u64, kept: usize) -> bool {
    let mut inner = logged(rt, alloc, 3);
    inner.append(&HEADS[0][..9]).expect(rt, "an append");
    let mut file = FaultyFile::new(inner, at, kept);
    let has_failed = match recover(alloc, &mut file, &mut none(alloc)) {
        Ok(end) => {
            assert!(rt; (end.records, end.torn) == (227, 9), "call {at}");
            false
        }
        Err(fault) => {
            assert!(rt; fault == LogFault::Device, "call {at}");
            true
        }
    };
    let mut file = file.into_inner();
    let (count, end) = recovers(rt, alloc, &mut file);
    assert!(rt; (count, end.records) == (3, 227), "call {at}");
    // All of it is on the disk.
    file.crash(0);
    assert!(rt; file.bytes() == logged(rt, alloc, 3).bytes(), "call {at}");
    has_failed
}

#[test]
fn a_recovery_fails_at_each_call_and_is_tried_again(rt: HostRuntime) {
    let mut failures = 0u64;
    for at in 1..20u64 {
        for kept in 0..2usize {
            if recovers_again(&rt, rt.alloc(), at, kept) {
                failures = failures.wrapping_add(1);
            }
        }
    }
    // Seven reads of the records, one of what is written again, a cut, a write and a sync.
    assert!(rt; failures == 22);
}
