//! The asks of a sequencer's log, in a file.
ghost use Rattle.std.specs.Prelude.{◌≡◌, ◌↔◌, ◌++◌, ◌+◌, ◌<◌, ◌≤◌, Some, length, drop, take, true, IfErr, MatchResult, OnOk};
ghost use Rattle.std.specs.List.{All};
ghost use Rattle.sb_ask_log.specs.Asks.{IsAsk, asks_field};
ghost use Rattle.sb_ask_log.specs.Telling.{FailsToSave, IsResumable, KeepsAsks};

use crate::keeper::Keeper;
use crate::log_in_file::LogInFile;
use sb_frames::{Frame, encode};
use sb_log::{DurableLog, HEAD, LogFault, LogFile};
use sb_sequencer::Sequencer;
use sha2::{Digest, Sha256};
use std::alloc::{AllocError, Global};
use std::marker::Model;

/// The asks of a sequencer's log, up to a length, in a file.
///
/// Contracts see the log of the file, its opening text, the hasher of what is on the disk, and how
/// many asks are.
#[derive(Drop)]
pub struct AskLog<F: LogFile> {
    log: DurableLog<F>,
    text: Vec<u8>,
    hasher: Sha256,
    saved: u64,
    // The record of a batch, while it is appended.
    batch: Vec<u8>,
}

impl<F: LogFile> Model for AskLog<F> {
    ghost use Rattle.sb_ask_log.specs.Telling.{AskLogOf};

    ghost Value = { AskLogOf F };

    ghost view = { λ a. record {
      log = a.log;
      text = a.text.items;
      hasher = a.hasher;
      saved = a.saved;
    } };
}

impl<F: LogFile> AskLog<F> {
    /// Goes on with the log that a file has, and answers the sequencer's log beside it.
    pub fn resume(alloc: Global, file: F, found: LogInFile) -> (AskLog<F>, Box<Sequencer>)
        requires { IsResumable F.IsHonest F.model file found.end found.text.items found.log.value.log }
        ensures log { result.1 ≡ found.log }
        ensures keeps { KeepsAsks F.IsHonest F.model result.0 found.log.value.log }
        ensures text { result.0.text ≡ found.text.items }
        ensures file { result.0.log.file ≡ file }
    {
        let LogInFile { text, log, end } = found;
        let hasher = end.hasher.clone().unwrap();
        let saved = log.length();
        let kept = AskLog {
            log: DurableLog::new(file, end.hasher),
            text,
            hasher,
            saved,
            batch: Vec::new(alloc),
        };
        (kept, log)
    }

    /// The opening text.
    pub fn text(&self) -> &[u8]
        ensures { result.now ≡ self.now.text }
    {
        &self.text
    }

    /// The file.
    pub fn file(&self) -> &F
        ensures { result.now ≡ self.now.log.file }
    {
        self.log.file()
    }

    /// The file. The log is given up.
    pub fn into_file(self) -> F
        ensures { result ≡ self.log.file }
    {
        let AskLog { log, .. } = self;
        log.into_file()
    }

    /// Appends the rest of a sequencer's log, as one batch, and has it on the disk. If there is none,
    /// nothing is written.
    ///
    /// Fails with
    /// - [`LogFault::Device`] if the device fails, or failed before: then the file has to be recovered,
    /// - [`LogFault::OutOfMemory`] if memory is refused; nothing changes then.
    pub fn save_rest(&mut self, log: &Sequencer) -> Result<(), LogFault>
        requires { self.old.saved ≤ length log.now.log }
        ensures honest { F.IsHonest self.old.log.file ↔ F.IsHonest self.new.log.file }
        // It keeps the whole log, or still what it kept before.
        ensures keeps { KeepsAsks F.IsHonest F.model self.old (take self.old.saved log.now.log)
            → MatchResult result (λ done. KeepsAsks F.IsHonest F.model self.new log.now.log)
            (λ fault. KeepsAsks F.IsHonest F.model self.new (take self.old.saved log.now.log)) }
        ensures text { self.new.text ≡ self.old.text }
        ensures failed { self.old.log.failed ≡ true → self.new.log.failed ≡ true }
        ensures fault { IfErr result (λ fault. FailsToSave F.has_failed self.old fault self.new) }
    {
        let length = log.length();
        if self.saved == length {
            return Ok(());
        }
        self.batch.clear();
        self.batch.extend_from_slice(&[0; HEAD])?;
        push_asks(log, self.saved, &mut self.batch)?;
        self.log.append(&mut self.batch)?;
        self.log.sync()?;
        self.hasher = self.log.hasher().clone().unwrap();
        self.saved = length;
        Ok(())
    }
}

// Appends the bytes of the asks behind the first so many.
fn push_asks(log: &Sequencer, from: u64, out: &mut Vec<u8>) -> Result<(), AllocError>
    requires { from ≤ length log.now.log }
    ensures spelled { OnOk result (out.new.items ≡ out.old.items ++ asks_field (drop from log.now.log)) }
    ensures valid { OnOk result (All IsAsk (drop from log.now.log)) }
{
    for before in from..log.length() {
        let (key, call) = log.ask_of(before + 1).unwrap();
        out.extend_from_slice(&encode(&Frame::Ask {
            client: key.client,
            request: key.request,
            call,
        }))?;
    }
    Ok(())
}

impl<F: LogFile> Keeper for AskLog<F> {
    ghost model = { record {
      Keeps = KeepsAsks F.IsHonest F.model;
      opening = λ log. Some log.text;
      fails = true;
      has_failed = λ log. log.log.failed;
    } };

    fn keep(&mut self, log: &Sequencer) -> Result<(), LogFault> {
        self.save_rest(log)
    }

    fn digest(&self) -> Option<[u8; 32]> {
        Some(self.hasher.clone().unwrap().finalize())
    }
}
