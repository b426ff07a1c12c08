//! A sequencer's log in a file in memory, which can crash.
ghost use Rattle.std.specs.List.{All};
ghost use Rattle.std.specs.Prelude.{◌≡◌, ◌≤◌, ◌+◌, ◌++◌, ◌∷◌, [], ℕ, List, drop, length, max, take, IfOk, OnOk};
ghost use Rattle.sha2.specs.Hashers.{Holds256};
ghost use Rattle.sb_calls.specs.declared.ask.Key.{Key as AnyKey};
ghost use Rattle.sb_calls.specs.declared.call.Call.{Call as AnyCall};
ghost use Rattle.sb_log.specs.Records.{record_after};
ghost use Rattle.sb_sequencer.specs.Numbering.{IsLog};
ghost use Rattle.sb_ask_log.specs.Asks.{IsAsk};
ghost use Rattle.sb_ask_log.specs.MemoryLog.{HasAsks, bytes_of_asks};

use crate::log_in_file::{LogInFile, recover_asks};
use arrayvec::ArrayVec;
use sb_calls::{Call, Key};
use sb_frames::{Frame, MAX_FRAME, encode};
use sb_log::{HEAD, MemoryFile, with_body, write_head};
use sb_sequencer::Sequencer;
use sha2::{Digest, Sha256};
use std::alloc::{AllocError, Global};
use std::marker::Model;

/// The greatest number of bytes of the record of one ask.
pub const ASK_RECORD: usize = HEAD + MAX_FRAME;

/// What stands in the first record: the opening of a bank without customers, behind its magic bytes.
const FIRST_BODY: &[u8] = b"SBLOG001begin\n";

/// A sequencer's log in a file in memory, with each ask in a record of its own. It remembers how many
/// asks are synced, and a crash can lose the rest.
///
/// Contracts see the file, the hasher of its bodies, and how many asks are synced.
#[derive(Drop)]
pub struct MemoryLog {
    file: MemoryFile,
    hasher: Sha256,
    synced: u64,
}

impl Model for MemoryLog {
    ghost use Rattle.sb_ask_log.specs.MemoryLog.{MemoryLogOf};

    ghost Value = { MemoryLogOf };

    ghost view = { λ l. record { file = l.file; hasher = l.hasher; synced = l.synced } };
}

impl MemoryLog {
    /// A log of no ask. Fails if memory is refused.
    pub fn new(alloc: Global) -> Result<MemoryLog, AllocError>
        ensures { IfOk result (λ log. HasAsks log [] × (log.synced ≡ 0)) }
    {
        let mut file = MemoryFile::new(alloc);
        let mut hasher = Sha256::new();
        file.reserve(ASK_RECORD)?;
        append_body(&mut file, &mut hasher, FIRST_BODY);
        file.mark_synced();
        Ok(MemoryLog {
            file,
            hasher,
            synced: 0,
        })
    }

    /// How many asks are synced.
    pub fn synced(&self) -> u64
        ensures { result ≡ self.now.synced }
    {
        self.synced
    }

    /// Makes room for one more ask, so that appending it can't fail. Fails if memory is refused.
    pub fn reserve(&mut self) -> Result<(), AllocError>
        ensures asks { (asks : List (AnyKey × AnyCall)) → HasAsks self.old asks → HasAsks self.new asks }
        ensures synced { self.new.synced ≡ self.old.synced }
        ensures room { OnOk result (ASK_RECORD ≤ self.new.file.room) }
    {
        self.file.reserve(ASK_RECORD)
    }

    /// Appends an ask, in a record of its own. Until a sync a crash may lose it.
    pub fn append_reserved(&mut self, key: Key, call: &Call)
        requires { ASK_RECORD ≤ self.old.file.room }
        ensures asks { (asks : List (AnyKey × AnyCall)) → HasAsks self.old asks
            → IsLog (asks ++ (key, call.now) ∷ []) → HasAsks self.new (asks ++ (key, call.now) ∷ []) }
        ensures synced { self.new.synced ≡ self.old.synced }
    {
        let body = encode(&Frame::Ask {
            client: key.client,
            request: key.request,
            call: *call,
        });
        append_body(&mut self.file, &mut self.hasher, &body);
    }

    /// Syncs all its asks, which are those of this log. It takes no memory and never fails.
    pub fn sync(&mut self, log: &Sequencer)
        ensures asks { HasAsks self.old log.now.log
            → HasAsks self.new log.now.log × (self.new.synced ≡ length log.now.log) }
    {
        self.file.mark_synced();
        self.synced = log.length();
    }

    /// What a crash leaves: the synced asks, and of the others as many as are `kept` in all, read
    /// back from the bytes. This log stays as it is. Fails if memory is refused.
    pub fn crashed(
        &self,
        alloc: Global,
        log: &Sequencer,
        kept: u64,
    ) -> Result<(MemoryLog, Box<Sequencer>), AllocError>
        requires { HasAsks self.now log.now.log }
        ensures { IfOk result (λ left. let asks = take (max self.now.synced kept) log.now.log in
            (left.1.value.log ≡ asks) × HasAsks left.0 asks × (left.0.synced ≡ length asks)) }
    {
        let file = self.file.crashed(alloc, size_of_first(log, kept))?;
        read_back(alloc, file)
    }
}

// The log that a file of whole records has. Fails if memory is refused.
fn read_back(alloc: Global, mut file: MemoryFile) -> Result<(MemoryLog, Box<Sequencer>), AllocError>
    ensures { (asks : List (AnyKey × AnyCall)) → IsLog asks → All IsAsk asks → file.content ≡ bytes_of_asks asks
        → IfOk result (λ left. (left.1.value.log ≡ asks) × HasAsks left.0 asks × (left.0.synced ≡ length asks)) }
{
    // No device fails, and no record is damaged.
    let Ok(found) = recover_asks(alloc, &mut file) else {
        return Err(AllocError);
    };
    let LogInFile { log, end, .. } = found;
    // It is already: recovery says so of the file's life, and not of its bytes.
    file.mark_synced();
    let synced = log.length();
    let left = MemoryLog {
        file,
        hasher: end.hasher,
        synced,
    };
    Ok((left, log))
}

// Appends the record of a body, for which there is room.
fn append_body(file: &mut MemoryFile, hasher: &mut Sha256, body: &[u8])
    requires size { length body.now ≤ MAX_FRAME }
    requires room { HEAD + length body.now ≤ file.old.room }
    ensures content { (before : List ℕ) → Holds256 hasher.old before
        → file.new.content ≡ file.old.content ++ record_after before body.now }
    ensures synced { file.new.synced ≡ file.old.synced }
    ensures hasher { (before : List ℕ) → Holds256 hasher.old before → Holds256 hasher.new (before ++ body.now) }
{
    let mut record = blank_record(body);
    let longer = with_body(hasher, body);
    write_head(&mut record, &longer);
    file.append_reserved(&record);
    *hasher = longer;
}

// A body with room for its head before it.
fn blank_record(body: &[u8]) -> ArrayVec<u8, ASK_RECORD>
    requires { length body.now ≤ MAX_FRAME }
    ensures size { length result.items ≡ HEAD + length body.now }
    ensures body { drop HEAD result.items ≡ body.now }
{
    let mut record = ArrayVec::new();
    record.try_extend_from_slice(&[0; HEAD]).unwrap();
    record.try_extend_from_slice(body).unwrap();
    record
}

// How many bytes the opening and the first asks of a log take, this many or all if there are fewer.
fn size_of_first(log: &Sequencer, count: u64) -> usize
    ensures { result ≡ length (bytes_of_asks (take count log.now.log)) }
{
    let mut size = HEAD + FIRST_BODY.len();
    for before in 0..count.min(log.length()) {
        let (key, call) = log.ask_of(before + 1).unwrap();
        let body = encode(&Frame::Ask {
            client: key.client,
            request: key.request,
            call,
        });
        size += HEAD + body.len();
    }
    size
}
