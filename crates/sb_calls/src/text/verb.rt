//! The verb of a call, which is its first word.
ghost use Rattle.std.specs.Prelude.{◌≡◌, ℕ, List, ◌∷◌, Err, MatchOption};
ghost use Rattle.sb_calls.specs.Call.{call_of_words};
ghost use Rattle.sb_calls.specs.declared.text.fault.CallFault.TheVariants.{UnknownVerb};
ghost use Rattle.sb_calls.specs.inner.Verbs.{verb_text, amount_call};

use crate::call::Call;
use sb_amount::Cents;
use sb_rows::{Name, word_is};

/// A call's verb.
#[derive(Clone, Copy)]
pub(crate) enum Verb {
    Balance,
    OfAmount(AmountVerb),
    Amalgamate,
    Pay,
}

/// The verb of a call that takes a name and an amount.
#[derive(Clone, Copy)]
pub(crate) enum AmountVerb {
    Deposit,
    Savings,
    Check,
}

impl Verb {
    /// The verb that a word spells.
    #[inline(always)]
    pub(crate) fn of(word: &[u8]) -> Option<Verb>
        ensures { MatchOption result
            ((rest : List (List ℕ)) → call_of_words (word.now ∷ rest) ≡ Err UnknownVerb)
            (λ verb. word.now ≡ verb_text verb) }
    {
        if word_is(word, b"balance") {
            Some(Verb::Balance)
        } else if word_is(word, b"deposit") {
            Some(Verb::OfAmount(AmountVerb::Deposit))
        } else if word_is(word, b"savings") {
            Some(Verb::OfAmount(AmountVerb::Savings))
        } else if word_is(word, b"check") {
            Some(Verb::OfAmount(AmountVerb::Check))
        } else if word_is(word, b"amalgamate") {
            Some(Verb::Amalgamate)
        } else if word_is(word, b"pay") {
            Some(Verb::Pay)
        } else {
            None
        }
    }
}

impl AmountVerb {
    /// The call with this verb, name and amount.
    #[inline(always)]
    pub(crate) fn into_call(self, name: Name, amount: Cents) -> Call
        ensures { result ≡ amount_call self name amount }
    {
        match self {
            AmountVerb::Deposit => Call::DepositChecking(name, amount),
            AmountVerb::Savings => Call::TransactSavings(name, amount),
            AmountVerb::Check => Call::WriteCheck(name, amount),
        }
    }
}
