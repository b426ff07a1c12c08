//! The bytes of a log's file, and what is read of one that was cut, altered, or whose device failed.
ghost use Rattle.std.specs.Prelude.{◌≡◌, ◌≤◌, [], length, IfOk};
ghost use Rattle.sb_ask_log.specs.Telling.{KeepsAsks};

use sb_ask_log::{
    AskLog, Keeper, LogInFile, create_asks, is_opening_text, read_asks, recover_asks,
};
use sb_frames::{Frame, decode};
use sb_log::{DurableLog, FaultyFile, HEAD, LogFault, LogFile, MemoryFile};
use sb_sequencer::Sequencer;
use std::alloc::Global;
use std::process::Abort;

const TEXT: &[u8] = b"alice 100.00 50.00\nbob 0.00 20.00\ncarol 10.00 0.00\nbegin\n";

// What stands before the opening's body, and before that of both asks.
const OPENING_HEAD: &[u8; HEAD] = b"\x00\x00\x00\x41\xff\xff\xff\xbe\
    \xed\x61\x63\x31\x4c\x36\xb4\x4c\x24\xd0\x0c\x1a\xd8\xeb\xa3\xbe\
    \x93\xd8\xf2\xf3\xc1\xcd\x4d\xb6\xb6\xfc\x6e\xd0\x05\x45\xd7\x9f";

const BATCH_HEAD: &[u8; HEAD] = b"\x00\x00\x00\x2a\xff\xff\xff\xd5\
    \x54\x65\xdd\x01\xc2\x22\xe1\xce\xf8\xaf\xb0\x9f\xe5\xed\x49\xc2\
    \x95\xc4\x58\x3c\xc3\x9e\xdc\xbb\x82\x6a\xe9\x25\x57\xec\xf1\x86";

// The digest with the first ask alone.
const FIRST_DIGEST: &[u8; 32] = b"\xac\x3d\x3b\x5f\xe8\xb5\x5b\xf3\x36\xa7\xd2\xaf\x2e\x69\xfa\xe1\
    \xed\x15\xc2\x71\xa0\x25\x9b\xab\xa5\x75\xde\xa6\x13\x5a\x24\xbc";

const FIRST: &[u8] = b"\x00\x10\x01\x00\x00\x00\x07\x00\x00\x00\x01\x01\x05alice";

const SECOND: &[u8] =
    b"\x00\x16\x01\x00\x00\x00\x07\x00\x00\x00\x02\x02\x03bob\x00\x00\x00\x00\x00\x00\x01\xf4";

// The file of the opening, and of both asks in one batch.
fn whole(rt: &impl Abort, alloc: Global) -> Vec<u8>
    ensures { length result.items ≡ 187 }
{
    let mut bytes = Vec::new(alloc);
    for part in [
        OPENING_HEAD.as_slice(),
        b"SBLOG001",
        TEXT,
        BATCH_HEAD,
        FIRST,
        SECOND,
    ] {
        bytes.extend_from_slice(part).expect(rt, "memory");
    }
    assert!(rt; bytes.len() == 187);
    bytes
}

// A file of these bytes.
fn file_of(rt: &impl Abort, alloc: Global, bytes: &[u8]) -> MemoryFile {
    let mut file = MemoryFile::new(alloc);
    file.append(bytes).expect(rt, "an append");
    file
}

// A file of these bodies.
fn file_with(rt: &impl Abort, alloc: Global, bodies: &[&[u8]]) -> MemoryFile {
    let mut log = DurableLog::new(MemoryFile::new(alloc), sha2::Digest::new());
    for body in bodies {
        let mut buffer = Vec::from_slice(alloc, &[0; HEAD]).expect(rt, "memory");
        let whole = &body[..body.len().min(1_000)];
        buffer.extend_from_slice(whole).expect(rt, "memory");
        log.append(&mut buffer).expect(rt, "an append");
    }
    log.into_file()
}

// A log with the opening, in an empty file.
fn made<F: LogFile>(rt: &impl Abort, alloc: Global, file: F) -> Result<Box<AskLog<F>>, LogFault>
    requires { F.IsHonest file → (F.model file).content ≡ [] }
    ensures { IfOk result (λ log. KeepsAsks F.IsHonest F.model log.value []) }
{
    let is = is_opening_text(alloc, TEXT).expect(rt, "memory");
    assert!(rt; is, "an opening");
    let text = Vec::from_slice(alloc, TEXT).expect(rt, "memory");
    let mut file = file;
    let made = create_asks(alloc, &mut file, text)?;
    let (log, _) = AskLog::resume(alloc, file, made);
    Ok(Box::new(alloc, log).expect(rt, "memory"))
}

// Whether a head ends with a log's digest.
fn has_digest<F: LogFile>(log: &AskLog<F>, head: &[u8]) -> bool {
    match log.digest() {
        Some(digest) => head.ends_with(&digest),
        None => false,
    }
}

// Numbers an ask.
fn number(rt: &impl Abort, log: &mut Sequencer, bytes: &[u8])
    ensures { length log.old.log ≤ length log.new.log }
{
    match decode(bytes) {
        Ok(
            (
                Frame::Ask {
                    client,
                    request,
                    call,
                },
                _,
            ),
        ) => assert!(rt; log.ask(client, request, &call).is_ok(), "a number"),
        _ => assert!(rt; false, "an ask"),
    }
}

// Whether a log has this many of the two asks, at their numbers.
fn has_first(log: &Sequencer, count: u64) -> bool {
    for number in 1..3 {
        let wanted = if number == 1 { FIRST } else { SECOND };
        let found = match (log.ask_of(number), decode(wanted)) {
            (Some((key, call)), Ok((frame, _))) => {
                let (client, request) = (key.client, key.request);
                frame
                    == Frame::Ask {
                        client,
                        request,
                        call,
                    }
            }
            _ => false,
        };
        if found != (number <= count) {
            return false;
        }
    }
    log.length() == count
}

// A sequencer of these asks.
fn sequencer_of(rt: &impl Abort, alloc: Global, asks: &[&[u8]]) -> Box<Sequencer> {
    let sequencer = Box::new(alloc, Sequencer::open(alloc, 1));
    let mut sequencer = sequencer.expect(rt, "memory");
    for ask in asks {
        number(rt, &mut sequencer, ask);
    }
    sequencer
}

// What is found of a file's log: this many of the two asks, and this text.
fn finds(rt: &impl Abort, found: &LogInFile, count: u64, text: &[u8], size: usize) {
    assert!(rt; has_first(&found.log, count), "the asks of {size} bytes");
    assert!(rt; found.text.as_slice() == text, "the text of {size} bytes");
}

#[test]
fn a_log_has_these_bytes(rt: HostRuntime) {
    let alloc = rt.alloc();
    let bytes = whole(&rt, alloc);
    let asks = sequencer_of(&rt, alloc, &[FIRST, SECOND]);
    let mut log = made(&rt, alloc, MemoryFile::new(alloc)).expect(&rt, "a log");
    assert!(rt; log.text() == TEXT, "the opening text");
    assert!(rt; log.file().bytes().len() == 105, "the opening's record");
    assert!(rt; bytes.starts_with(log.file().bytes()), "the opening");
    assert!(rt; has_digest(&log, OPENING_HEAD), "the opening's digest");
    log.save_rest(&asks).expect(&rt, "a save");
    assert!(rt; log.file().bytes() == bytes.as_slice(), "both asks");
    assert!(rt; has_digest(&log, BATCH_HEAD), "the digest of both asks");
}

#[test]
fn a_log_goes_on(rt: HostRuntime) {
    let alloc = rt.alloc();
    let asks = sequencer_of(&rt, alloc, &[FIRST]);
    let mut log = made(&rt, alloc, MemoryFile::new(alloc)).expect(&rt, "a log");
    log.save_rest(&asks).expect(&rt, "a save");
    assert!(rt;
        has_digest(&log, FIRST_DIGEST),
        "the digest of the first ask"
    );
    let mut file = Box::into_inner(log).into_file();
    let found = recover_asks(alloc, &mut file).expect(&rt, "a log");
    assert!(rt; !found.text.is_empty(), "an opening");
    let (mut log, mut asks) = AskLog::resume(alloc, file, found);
    number(&rt, &mut asks, SECOND);
    log.save_rest(&asks).expect(&rt, "a save");
    assert!(rt; has_digest(&log, BATCH_HEAD), "the digest of both asks");
    assert!(rt; log.file().bytes().len() == 227);
}

// A log whose call with this number fails as both asks are saved crashes, and keeps this many bytes. This many asks are
// left.
fn fails_at(rt: &impl Abort, alloc: Global, at: u64, kept: usize, count: u64) {
    let asks = sequencer_of(rt, alloc, &[FIRST, SECOND]);
    let file = FaultyFile::new(MemoryFile::new(alloc), at, 10);
    let mut log = made(rt, alloc, file).expect(rt, "a log");
    assert!(rt; log.save_rest(&asks) == Err(LogFault::Device), "call {at}");
    assert!(rt; has_digest(&log, OPENING_HEAD), "nothing was told");
    let mut file = Box::into_inner(log).into_file().into_inner();
    file.crash(kept);
    let found = recover_asks(alloc, &mut file).expect(rt, "a log");
    finds(rt, &found, count, TEXT, kept);
}

#[test]
fn each_call_fails_in_turn(rt: HostRuntime) {
    let alloc = rt.alloc();
    for at in 1..3 {
        let file = FaultyFile::new(MemoryFile::new(alloc), at, 10);
        assert!(rt;
            made(&rt, alloc, file).err() == Some(LogFault::Device),
            "call {at}"
        );
    }
    for (at, kept, count) in [(3, 115, 0), (4, 0, 0), (4, 186, 0), (4, 187, 2)] {
        fails_at(&rt, alloc, at, kept, count);
    }
}

// How many bytes a recovery leaves of a file of this size.
fn left_of(size: usize) -> usize {
    if size < 105 {
        0
    } else if size < 187 {
        105
    } else {
        187
    }
}

// This beginning of a log's file is read, and recovered.
fn is_read(rt: &impl Abort, alloc: Global, beginning: &[u8]) {
    let size = beginning.len();
    let mut file = file_of(rt, alloc, beginning);
    let count = if size < 187 { 0 } else { 2 };
    let left = left_of(size);
    let text = if left == 0 { b"".as_slice() } else { TEXT };
    let read = read_asks(alloc, &mut file).expect(rt, "a log");
    finds(rt, &read, count, text, size);
    assert!(rt; file.bytes().len() == size, "{size} bytes are only read");
    let found = recover_asks(alloc, &mut file).expect(rt, "a log");
    finds(rt, &found, count, text, size);
    assert!(rt;
        file.bytes() == &beginning[..left.min(size)],
        "what is left of {size} bytes"
    );
}

#[test]
fn each_beginning_is_read(rt: HostRuntime) {
    let bytes = whole(&rt, rt.alloc());
    for size in 0..188 {
        is_read(&rt, rt.alloc(), &bytes[..size.min(bytes.len())]);
    }
}

// Recovering this file finds this damage, and leaves the file as it is.
fn is_damaged(rt: &impl Abort, alloc: Global, file: MemoryFile, byte: u64, behind: u64) {
    let mut file = file;
    let bytes = Vec::from_slice(alloc, file.bytes()).expect(rt, "memory");
    let fault = recover_asks(alloc, &mut file).err();
    assert!(rt; fault == Some(LogFault::Damaged { byte, behind }), "{byte}");
    assert!(rt; file.bytes() == bytes.as_slice(), "nothing is changed");
}

#[test]
fn a_flipped_bit_is_damage(rt: HostRuntime) {
    let alloc = rt.alloc();
    for at in 0..187usize {
        let mut bytes = whole(&rt, alloc);
        bytes[at] ^= 1;
        let byte = if at < 105 { 0 } else { 105 };
        let file = file_of(&rt, alloc, &bytes);
        is_damaged(&rt, alloc, file, byte, 187 - byte);
    }
}

#[test]
fn bodies_that_no_log_has(rt: HostRuntime) {
    let alloc = rt.alloc();
    let mut opening = Vec::from_slice(alloc, b"SBLOG001".as_slice()).expect(&rt, "memory");
    opening.extend_from_slice(TEXT).expect(&rt, "memory");
    let no_opening = file_with(&rt, alloc, &[FIRST]);
    is_damaged(&rt, alloc, no_opening, 0, 58);
    let empty_batch = file_with(&rt, alloc, &[&opening, b"".as_slice()]);
    is_damaged(&rt, alloc, empty_batch, 105, 40);
    let key_again = file_with(&rt, alloc, &[&opening, FIRST, SECOND, FIRST]);
    is_damaged(&rt, alloc, key_again, 227, 58);
}

// Inputs, and whether each is the log's opening, but for the end of its last line.
const INPUTS: &[(&[u8], bool)] = &[
    (TEXT, true),
    (
        b"alice 100.00 50.00\nbob 0.00 20.00\ncarol 10.00 0.00\nbegin",
        true,
    ),
    (
        b"alice 100.00 50.00\nbob 0.00 20.00\ncarol 10.00 0.01\nbegin\n",
        false,
    ),
    (
        b"alice 100.00 50.00\nbob 0.00 20.00\ncarol 10.00 0.00\nbegin\n\n",
        false,
    ),
    (b"alice 100.00 50.00\nbegin\n", false),
    (b"", false),
];

#[test]
fn an_opening_is_told_from_another(rt: HostRuntime) {
    let alloc = rt.alloc();
    let mut file = file_of(&rt, alloc, &whole(&rt, alloc));
    let found = recover_asks(alloc, &mut file).expect(&rt, "a log");
    for (input, same) in INPUTS {
        let has = found.has_opening(alloc, input).expect(&rt, "memory");
        assert!(rt; has == *same, "an opening");
    }
}
