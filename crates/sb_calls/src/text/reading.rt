//! The text of a call: `balance N`, `deposit N V`, `savings N V`, `check N V`, `amalgamate N1 N2`
//! or `pay N1 N2 V`.
ghost use Rattle.std.specs.Prelude.{◌≡◌, ℕ, ℤ, List, ◌∷◌, Ok, Err, IfOk};
ghost use Rattle.std.specs.Result.{result_map_both};
ghost use Rattle.sb_calls.specs.declared.call.Call.{Call as AnyCall};
ghost use Rattle.sb_calls.specs.Call.{IsCall, call_line, call_of, call_of_words, of_name, of_name_and_amount, of_two_names, of_two_names_and_amount};

use super::fault::CallFault;
use super::verb::Verb;
use crate::call::Call;
use sb_amount::Cents;
use sb_rows::{Name, Words};

/// The call that a line spells.
///
/// Fails with the first fault of the line, in the order of [`CallFault`]'s variants.
pub fn read_call(line: &[u8]) -> Result<Call, CallFault>
    // A line that is read spells the call.
    ensures spelled { IfOk result (λ call. IsCall call × (line.now ≡ call_line call)) }
    // A line that spells a call is read.
    ensures complete { (call : AnyCall) → IsCall call → line.now ≡ call_line call → result ≡ Ok call }
    // The result, exactly.
    ensures exact { result ≡ call_of line.now }
{
    read_call_words(Words::of(line))
}

/// The call that all remaining words of a line spell.
///
/// Fails as [`read_call`] does, and with `UnknownVerb` if no word is left.
pub fn read_call_words(mut words: Words) -> Result<Call, CallFault>
    ensures { result ≡ call_of_words words.entry }
{
    let Some(verb) = words.next() else {
        return Err(CallFault::UnknownVerb);
    };
    call_with(verb, words)
}

// The call with a verb and the words after it.
#[inline]
pub(crate) fn call_with(verb: &[u8], words: Words) -> Result<Call, CallFault>
    ensures { result ≡ call_of_words (verb.now ∷ words.entry) }
{
    let Some(verb) = Verb::of(verb) else {
        return Err(CallFault::UnknownVerb);
    };
    match verb {
        Verb::Balance => one_name(words).map(Call::Balance),
        Verb::OfAmount(verb) => {
            let (name, amount) = name_and_amount(words)?;
            Ok(verb.into_call(name, amount))
        }
        Verb::Amalgamate => {
            let (from, to) = two_names(words)?;
            Ok(Call::Amalgamate(from, to))
        }
        Verb::Pay => {
            let (from, to, amount) = two_names_and_amount(words)?;
            Ok(Call::SendPayment(from, to, amount))
        }
    }
}

// The one remaining name. It serves every call that takes a name.
#[inline]
fn one_name(words: Words) -> Result<Name, CallFault>
    ensures { (call : List ℕ → AnyCall)
        → result_map_both call (λ fault. fault) result ≡ of_name call words.entry }
{
    let Ok(name) = words.last() else {
        return Err(CallFault::WrongWords);
    };
    Name::new(name).ok_or(CallFault::BadName)
}

// The remaining name and amount. It serves every call that takes both.
#[inline]
fn name_and_amount(mut words: Words) -> Result<(Name, Cents), CallFault>
    ensures { (call : List ℕ → ℤ → AnyCall)
        → result_map_both (λ both. call both.0 both.1) (λ fault. fault) result
        ≡ of_name_and_amount call words.entry }
{
    let (Ok(name), Ok(amount)) = (words.word(), words.last()) else {
        return Err(CallFault::WrongWords);
    };
    let Some(name) = Name::new(name) else {
        return Err(CallFault::BadName);
    };
    let Ok(amount) = Cents::read(amount) else {
        return Err(CallFault::BadMoney);
    };
    Ok((name, amount))
}

// The two remaining names. It serves every call that takes two names.
#[inline]
fn two_names(mut words: Words) -> Result<(Name, Name), CallFault>
    ensures { (call : List ℕ → List ℕ → AnyCall)
        → result_map_both (λ both. call both.0 both.1) (λ fault. fault) result
        ≡ of_two_names call words.entry }
{
    let (Ok(from), Ok(to)) = (words.word(), words.last()) else {
        return Err(CallFault::WrongWords);
    };
    let (Some(from), Some(to)) = (Name::new(from), Name::new(to)) else {
        return Err(CallFault::BadName);
    };
    Ok((from, to))
}

// The remaining two names and amount. It serves every call that takes all three.
#[inline]
fn two_names_and_amount(mut words: Words) -> Result<(Name, Name, Cents), CallFault>
    ensures { (call : List ℕ → List ℕ → ℤ → AnyCall)
        → result_map_both (λ all. call all.0 all.1 all.2) (λ fault. fault) result
        ≡ of_two_names_and_amount call words.entry }
{
    let (Ok(from), Ok(to), Ok(amount)) = (words.word(), words.word(), words.last()) else {
        return Err(CallFault::WrongWords);
    };
    let (Some(from), Some(to)) = (Name::new(from), Name::new(to)) else {
        return Err(CallFault::BadName);
    };
    let Ok(amount) = Cents::read(amount) else {
        return Err(CallFault::BadMoney);
    };
    Ok((from, to, amount))
}
