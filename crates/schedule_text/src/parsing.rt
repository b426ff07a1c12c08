//! The numbers and the call that are left on a line.
ghost use Rattle.std.specs.Prelude.{◌≡◌, ℕ};
ghost use Rattle.std.specs.Result.{result_map_both};
ghost use Rattle.sb_calls.specs.declared.call.Call.{Call as AnyCall};
ghost use Rattle.schedule_text.specs.EventText.{event_of_call, event_of_none, event_of_one, event_of_two, event_of_three};
ghost use Rattle.schedule_text.specs.declared.event.Event.{Event as AnyEvent};

use crate::fault::EventFault;
use sb_calls::{Call, read_call_words, read_number};
use sb_rows::Words;

// Fails if a word is left, whatever event it is for.
pub(crate) fn parse_end(mut words: Words) -> Result<(), EventFault>
    ensures { (event : AnyEvent)
        → result_map_both (λ _. event) (λ fault. fault) result ≡ event_of_none event words.entry }
{
    match words.next() {
        None => Ok(()),
        Some(_) => Err(EventFault::WrongWords),
    }
}

// The one number that is left, whatever event it is for.
pub(crate) fn parse_one(words: Words) -> Result<u32, EventFault>
    ensures { (event : ℕ → AnyEvent)
        → result_map_both event (λ fault. fault) result ≡ event_of_one event words.entry }
{
    let Ok(word) = words.last() else {
        return Err(EventFault::WrongWords);
    };
    read_number(word).ok_or(EventFault::BadNumber)
}

// The two numbers that are left, whatever event they are for.
pub(crate) fn parse_two(mut words: Words) -> Result<(u32, u32), EventFault>
    ensures { (event : ℕ → ℕ → AnyEvent)
        → result_map_both (λ two. event two.0 two.1) (λ fault. fault) result
        ≡ event_of_two event words.entry }
{
    let (Ok(first), Ok(second)) = (words.word(), words.last()) else {
        return Err(EventFault::WrongWords);
    };
    let (Some(first), Some(second)) = (read_number(first), read_number(second)) else {
        return Err(EventFault::BadNumber);
    };
    Ok((first, second))
}

// The three numbers that are left, whatever event they are for.
pub(crate) fn parse_three(mut words: Words) -> Result<(u32, u32, u32), EventFault>
    ensures { (event : ℕ → ℕ → ℕ → AnyEvent)
        → result_map_both (λ three. event three.0 three.1 three.2) (λ fault. fault) result
        ≡ event_of_three event words.entry }
{
    let (Ok(first), Ok(second), Ok(third)) = (words.word(), words.word(), words.last()) else {
        return Err(EventFault::WrongWords);
    };
    let (Some(first), Some(second), Some(third)) = (
        read_number(first),
        read_number(second),
        read_number(third),
    ) else {
        return Err(EventFault::BadNumber);
    };
    Ok((first, second, third))
}

// The client's number, its number for the request, and the call that are left, whatever event they
// are for.
pub(crate) fn parse_call(mut words: Words) -> Result<(u32, u32, Call), EventFault>
    ensures { (event : ℕ → ℕ → AnyCall → AnyEvent)
        → result_map_both (λ three. event three.0 three.1 three.2) (λ fault. fault) result
        ≡ event_of_call event words.entry }
{
    let (Ok(client), Ok(request)) = (words.word(), words.word()) else {
        return Err(EventFault::WrongWords);
    };
    let (Some(client), Some(request)) = (read_number(client), read_number(request)) else {
        return Err(EventFault::BadNumber);
    };
    let call = read_call_words(words)?;
    Ok((client, request, call))
}
