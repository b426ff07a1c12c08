//! The asks of an input, numbered into the log.
ghost use Rattle.std.specs.Prelude.{◌≡◌, ℕ, ◌+◌, ◌<◌, ◌≤◌, ◌^◌, ◌++◌, None, List, [], length, IfOk, OnOk, OnErr, MatchOption, MatchResult};
ghost use Rattle.std.specs.List.{All};
ghost use Rattle.sb_rows.specs.Text.{lines};
ghost use Rattle.sb_calls.specs.Ask.{IsKey};
ghost use Rattle.sb_calls.specs.declared.ask.AskLine.{AskLine as AnyAskLine};
ghost use Rattle.sb_calls.specs.declared.ask.Key.{Key as AnyKey};
ghost use Rattle.sb_calls.specs.declared.call.Call.{Call as AnyCall};
ghost use Rattle.sb_sequencer.specs.Numbering.{IsLog, first_asks};
ghost use Rattle.bank_server.specs.AskResults.{LinesGiveStandings, standing_of_answer};
ghost use Rattle.bank_server.specs.inner.AskSteps.{IsAfterAsks, HasLogNumber, HasStandings, AddsLineAsk, AddsAsk};
ghost use Rattle.bank_server.specs.Asks.{key_of_line, running_after};
ghost use Rattle.bank_server.specs.declared.fault.RunFault.TheVariants.{OutOfMemory};
ghost use Rattle.bank_server.specs.Faults.{IsTextFaultOf};
ghost use Rattle.bank_server.specs.Input.{asks_from, in_call};
ghost use Rattle.bank_server.specs.Standing.{IsStandingWithin};

use super::log_number::LogNumber;
use crate::fault::{InputFault, RunFault};
use crate::node0::Primary;
use sb_calls::{AskLine, Call, Key, LOG_CALLS, push_ask};
use sb_checkpoint::CheckpointStore;
use sb_rows::next_line;
use sb_sequencer::{AskFault, Numbered, Sequencer};
use std::alloc::{AllocError, Global};

// The usual number of bytes of an asking line. It gives the room to reserve; if lines are shorter,
// the lists grow.
const USUAL_LINE: usize = 32;

// How many lines are read before the first of them is asked.
const BATCH_LINES: usize = 32;

/// The standing of an ask in the log.
#[derive(Clone, Copy, Debug, PartialEq, Eq)]
pub enum Standing {
    /// Its call has this number.
    Number(LogNumber),
    /// Its key has this number, with another call.
    Mismatch(LogNumber),
    /// Its key has no number, since the log was full.
    LogFull,
}

/// The usual number of asking lines in a text of this many bytes.
pub(crate) fn usual_lines(bytes: usize) -> usize {
    bytes / USUAL_LINE
}

/// Asks for each line of a text, with an empty log, and answers the standing of each in the log;
/// the first line has this number.
///
/// A line without `ask` is asked by client 0, with its running number among such lines.
pub fn ask_lines<S: CheckpointStore>(
    alloc: Global,
    text: &[u8],
    first_line: usize,
    primary: &mut Primary<S>,
) -> Result<Vec<Standing>, RunFault>
    requires line { first_line + length text.now < 2 ^ 64 }
    requires log { primary.old.log ≡ [] }
    ensures asked { MatchResult result
        (λ standings. LinesGiveStandings (asks_from first_line [] (lines text.now)) primary.new.log standings.items)
        (λ fault. IsTextFaultOf fault (in_call (asks_from first_line [] (lines text.now)))) }
    ensures node { primary.new.node ≡ primary.old.node }
{
    let mut batch = Vec::new(alloc);
    let mut standings = Vec::with_capacity(alloc, usual_lines(text.len()))?;
    ask_all(text, first_line, primary, &mut batch, &mut standings)?;
    Ok(standings)
}

// Asks for each line of a text, with an empty log. The batch gives room for the lines that are read
// before the first of them is asked.
fn ask_all<S: CheckpointStore>(
    text: &[u8],
    first_line: usize,
    primary: &mut Primary<S>,
    batch: &mut Vec<AskLine>,
    standings: &mut Vec<Standing>,
) -> Result<(), RunFault>
    requires line { first_line + length text.now < 2 ^ 64 }
    requires log { primary.old.log ≡ [] }
    requires standings { standings.old.items ≡ [] }
    ensures asked { MatchResult result
        (λ done. LinesGiveStandings (asks_from first_line [] (lines text.now)) primary.new.log standings.new.items)
        (λ fault. IsTextFaultOf fault (in_call (asks_from first_line [] (lines text.now)))) }
    ensures node { primary.new.node ≡ primary.old.node }
{
    let mut running = 1u64;
    let mut left = text;
    while !left.is_empty() {
        left = read_batch(left, first_line + standings.len(), batch)?;
        reserve_new(primary, batch)?;
        running = ask_batch(primary, running, batch, standings)?;
    }
    Ok(())
}

// Reads the next lines of a text, up to a limit, in place of what the batch had, and answers the
// text after them. The first of them has this number.
fn read_batch<'a>(
    text: &'a [u8],
    first_line: usize,
    batch: &mut Vec<AskLine>,
) -> Result<&'a [u8], RunFault>
    requires line { first_line + length text.now < 2 ^ 64 }
    requires some { 0 < length text.now }
    ensures read { (first : ℕ) (before : List AnyAskLine) → first_line ≡ first + length before
        → MatchResult result
        (λ rest. asks_from first before (lines text.now) ≡ asks_from first (before ++ batch.new.items) (lines rest.now))
        (λ fault. IsTextFaultOf fault (in_call (asks_from first before (lines text.now)))) }
    ensures keys { OnOk result (All (λ asked. IsKey asked.key) batch.new.items) }
    ensures within { IfOk result (λ rest. length rest.now + length batch.new.items ≤ length text.now) }
    ensures shorter { IfOk result (λ rest. length rest.now < length text.now) }
{
    batch.clear();
    batch.reserve(BATCH_LINES)?;
    let mut left = text;
    for taken in 0..BATCH_LINES {
        let Some((line, rest)) = next_line(left) else {
            return Ok(&[]);
        };
        if let Err(fault) = push_ask(line, batch) {
            return Err(RunFault::Input {
                line: first_line + batch.len(),
                fault: InputFault::Call(fault),
            });
        }
        left = rest;
    }
    Ok(left)
}

// Makes room for those of these lines that are new. The keys are looked up one right after another,
// so that no look-up waits for the memory of the one before.
fn reserve_new<S: CheckpointStore>(
    primary: &mut Primary<S>,
    batch: &[AskLine],
) -> Result<(), AllocError>
    ensures { primary.new ≡ primary.old }
{
    let mut new = 0;
    for asked in batch {
        if is_new(primary.log(), asked.key) {
            new += 1;
        }
    }
    primary.reserve(new)
}

// Whether the log has no number for a line. For one without a key it never has.
fn is_new(log: &Sequencer, key: Option<Key>) -> bool {
    match key {
        Some(key) => log.number_of(key.client, key.request).is_none(),
        None => true,
    }
}

// Asks for each of these lines, if the next line without a key has this running number. Answers the
// running number after them.
fn ask_batch<S: CheckpointStore>(
    primary: &mut Primary<S>,
    first_running: u64,
    batch: &[AskLine],
    standings: &mut Vec<Standing>,
) -> Result<u64, RunFault>
    requires keys { All (λ asked. IsKey asked.key) batch.now }
    requires running { first_running + length batch.now < 2 ^ 64 }
    ensures asked { (asks : List AnyAskLine) → HasStandings asks first_running primary.old.log standings.old.items
        → MatchResult result
        (λ running. HasStandings (asks ++ batch.now) running primary.new.log standings.new.items)
        (λ fault. fault ≡ OutOfMemory) }
    ensures running { IfOk result (λ running. running ≤ first_running + length batch.now) }
    ensures count { OnOk result (length standings.new.items ≡ length standings.old.items + length batch.now) }
    ensures node { primary.new.node ≡ primary.old.node }
{
    let mut running = first_running;
    for asked in batch {
        standings.push(ask_line(primary, running, asked)?)?;
        running = next_running(running, asked.key);
    }
    Ok(running)
}

// The next running number, if the line before had this key and this running number.
fn next_running(running: u64, key: Option<Key>) -> u64
    requires { running + 1 < 2 ^ 64 }
    ensures { result ≡ running_after running key }
{
    match key {
        Some(_) => running,
        None => running + 1,
    }
}

// Asks for one line, if the next line without a key has this running number.
fn ask_line<S: CheckpointStore>(
    primary: &mut Primary<S>,
    running: u64,
    asked: &AskLine,
) -> Result<Standing, RunFault>
    requires { IsKey asked.now.key }
    ensures asked { (asks : List AnyAskLine) → IsAfterAsks asks running primary.old.log
        → AddsLineAsk asks running asked.now primary.new.log result }
    ensures node { primary.new.node ≡ primary.old.node }
{
    match key_of(running, asked.key) {
        Some(key) => Ok(primary.ask(key, &asked.call)?),
        // So many keys came before this one that the log is full.
        None => Ok(Standing::LogFull),
    }
}

// The key of a line, or `None` if the running number is beyond what a request can be.
fn key_of(running: u64, key: Option<Key>) -> Option<Key>
    ensures { MatchOption result
        ((key ≡ None) × (2 ^ 32 ≤ running))
        (λ found. found ≡ key_of_line running key) }
{
    match key {
        Some(key) => Some(key),
        None => match u32::try_from(running) {
            Ok(request) => Some(Key { client: 0, request }),
            Err(_) => None,
        },
    }
}

/// The standing of an ask with this answer of the sequencer, or `None` if memory was refused.
pub(crate) fn standing_of(answer: Result<Numbered, AskFault>) -> Option<Standing>
    requires { HasLogNumber answer }
    ensures { result ≡ standing_of_answer answer }
{
    match answer {
        Ok(Numbered::New(number)) => Some(Standing::Number(LogNumber::new(number))),
        Ok(Numbered::Repeat(number)) => Some(Standing::Number(LogNumber::new(number))),
        Err(AskFault::Mismatch(number)) => Some(Standing::Mismatch(LogNumber::new(number))),
        Err(AskFault::LogFull) => Some(Standing::LogFull),
        Err(AskFault::OutOfMemory) => None,
    }
}
