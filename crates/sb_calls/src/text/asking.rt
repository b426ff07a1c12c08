//! The text of an asking line: a call, or `ask CLIENT REQUEST CALL`.
ghost use Rattle.std.specs.Prelude.{◌≡◌, ◌<◌, [], ◌∷◌, ◌++◌, Some, Ok, Err, IfOk, IsOk, MatchResult, vec_len, vec_capacity};
ghost use Rattle.sb_calls.specs.Call.{call_of_words};
ghost use Rattle.sb_calls.specs.declared.ask.AskLine.{AskLine as AnyAskLine};
ghost use Rattle.sb_calls.specs.Ask as spec;
ghost use Rattle.sb_calls.specs.Ask.{IsAskLine, ask_line, ask_line_of, ask_line_of_words, keyed_ask, key_of, under_key};

use super::fault::CallFault;
use super::number::read_number;
use super::reading::call_with;
use crate::ask::{AskLine, Key};
use crate::call::Call;
use sb_rows::{Words, word_is};

/// What an asking line asks.
///
/// Fails with the first fault of the line. If its first word is `ask`: with `WrongWords` if there
/// are fewer than three words, with `BadNumber` if one of the two numbers isn't valid (the client's
/// is at least 1, both are below 2^32, in decimal without leading zeros), and then with the faults
/// of the call that follows.
#[inline]
pub fn read_ask(line: &[u8]) -> Result<AskLine, CallFault>
    // A line that is read spells what it asks.
    ensures spelled { IfOk result (λ asked. IsAskLine asked × (line.now ≡ ask_line asked)) }
    // A line that spells an ask is read.
    ensures complete { (asked : AnyAskLine) → IsAskLine asked → line.now ≡ ask_line asked
        → result ≡ Ok asked }
    // The result, exactly.
    ensures exact { result ≡ ask_line_of line.now }
{
    let mut words = Words::of(line);
    let (key, verb) = key_and_verb(&mut words)?;
    let call = call_with(verb, words)?;
    Ok(AskLine { key, call })
}

/// Appends what an asking line asks to a list, in room that was reserved.
///
/// Fails as [`read_ask`] does; nothing changes then.
pub fn push_ask(line: &[u8], asks: &mut Vec<AskLine>) -> Result<(), CallFault>
    requires room { vec_len asks.old < vec_capacity asks.old }
    ensures pushed { MatchResult (ask_line_of line.now)
        (λ asked. IsOk result × (asks.new.items ≡ asks.old.items ++ asked ∷ []))
        (λ fault. (result ≡ Err fault) × (asks.new ≡ asks.old)) }
    ensures capacity { vec_capacity asks.new ≡ vec_capacity asks.old }
{
    // The checker goes through a call's parts, and needs the type stated.
    let _parts: Option<Call> = None;
    asks.push_reserved(read_ask(line)?);
    Ok(())
}

// The key, if the first word is `ask`, and the verb of the call.
#[inline]
fn key_and_verb<'a>(words: &mut Words<'a>) -> Result<(Option<Key>, &'a [u8]), CallFault>
    ensures { MatchResult result
        (λ both. ask_line_of_words words.old ≡ under_key both.0 (call_of_words (both.1.now ∷ words.new)))
        (λ fault. ask_line_of_words words.old ≡ Err fault) }
{
    let Some(verb) = words.next() else {
        return Err(CallFault::UnknownVerb);
    };
    // Only a line that begins with `ask` has a key.
    if !word_is(verb, b"ask") {
        return Ok((None, verb));
    }
    let key = next_key(words)?;
    let Some(verb) = words.next() else {
        return Err(CallFault::UnknownVerb);
    };
    Ok((Some(key), verb))
}

// The key that the next two words spell.
#[inline]
fn next_key(words: &mut Words) -> Result<Key, CallFault>
    ensures { MatchResult result
        (λ key. keyed_ask words.old ≡ under_key (Some key) (call_of_words words.new))
        (λ fault. keyed_ask words.old ≡ Err fault) }
{
    let (Ok(client), Ok(request)) = (words.word(), words.word()) else {
        return Err(CallFault::WrongWords);
    };
    key_of(client, request).ok_or(CallFault::BadNumber)
}

// The key with these two numbers. A client is never 0.
fn key_of(client: &[u8], request: &[u8]) -> Option<Key>
    ensures { result ≡ key_of (spec.read_number client.now) (spec.read_number request.now) }
{
    match (read_number(client), read_number(request)) {
        (Some(client), Some(request)) if client != 0 => Some(Key { client, request }),
        _ => None,
    }
}
