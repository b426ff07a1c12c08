//! How the log answers an ask, and numbers it.
ghost use Rattle.std.specs.Prelude.{◌≡◌, ◌<◌, ◌≤◌, ◌↔◌, Some, length, List, slice_get, IsTrue, vec_capacity};
ghost use Rattle.sb_calls.specs.declared.ask.Key.{Key as AnyKey};
ghost use Rattle.sb_calls.specs.declared.call.Call.{Call as AnyCall};
ghost use Rattle.sb_sequencer.specs.Answer.{AnswersAsk, LogAfter};
ghost use Rattle.sb_sequencer.specs.Numbering.{index_of_key};

use crate::answer::{AskFault, Numbered};
use crate::answers::make_room;
use crate::log::Log;
use sb_calls::{Call, Key, LOG_CALLS, Reply};

// Whether two calls are equal. For the prover alone: here `==` gets its clause.
fn same_call(a: &Call, b: &Call) -> bool
    ensures { IsTrue result ↔ (a.now ≡ b.now) }
{
    a == b
}

// The answer to an ask whose key is at this index of a log, with this call.
fn answer_known(index: usize, numbered: &Call, call: &Call) -> Result<Numbered, AskFault>
    requires { index < LOG_CALLS }
    ensures answer { (log : List (AnyKey × AnyCall)) (key : AnyKey) → index_of_key log key ≡ Some index
        → slice_get log index ≡ Some (key, numbered.now) → AnswersAsk log (key, call.now) result }
    ensures log { (log : List (AnyKey × AnyCall)) (ask : AnyKey × AnyCall) → LogAfter log ask result log }
{
    let number = index as u64 + 1;
    if same_call(numbered, call) {
        Ok(Numbered::Repeat(number))
    } else {
        Err(AskFault::Mismatch(number))
    }
}

// Answers an ask, and appends its call if the key is new, once there is room for an answer to it.
pub(crate) fn ask_log(
    log: &mut Log,
    answers: &mut Vec<Option<Reply>>,
    key: Key,
    call: &Call,
) -> Result<Numbered, AskFault>
    requires calls { length log.old ≤ LOG_CALLS }
    requires limit { length answers.old.items ≤ length log.old }
    requires room { length log.old ≤ vec_capacity answers.old }
    ensures answer { AnswersAsk log.old (key, call.now) result }
    ensures log { LogAfter log.old (key, call.now) result log.new }
    ensures unchanged { answers.new.items ≡ answers.old.items }
    ensures room { length log.new ≤ vec_capacity answers.new }
{
    if let Some((index, numbered)) = log.find(&key) {
        return answer_known(index, numbered, call);
    }
    if log.len() >= LOG_CALLS {
        return Err(AskFault::LogFull);
    }
    let calls = log.len() + 1;
    if make_room(answers, calls).is_err() || log.push(key, call).is_err() {
        return Err(AskFault::OutOfMemory);
    }
    Ok(Numbered::New(calls as u64))
}
