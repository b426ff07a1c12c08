//! The words after `ask`.
ghost use Rattle.std.specs.Prelude.{◌≤◌, IfSome, codes, map, string_bytes};
ghost use Rattle.program_words.specs.Words.{MayHaveInteger};
ghost use Rattle.program_words.specs.inner.WordValues.{IsAskOf};

use crate::options::{parse_count, parse_number, parse_optional};

/// Whom a client asks, and under which numbers.
#[derive(Clone, Copy, Debug, PartialEq, Eq)]
pub struct AskWords {
    /// The port where the server listens.
    pub port: u16,
    /// The client's number, if one is given.
    pub client: Option<u32>,
    /// The number of the first request.
    pub from: u32,
    /// How many requests are sent before their outcomes are asked for: 1 to 10,000.
    pub flush: usize,
}

/// Whom a client asks, by the words after `ask`.
pub(super) fn ask_words(options: &[String]) -> Option<AskWords>
    ensures { IfSome result (λ ask. IsAskOf options.now ask) }
{
    let ask = AskWords {
        port: u16::try_from(parse_number(options, "--port")?).ok()?,
        client: client_of(options)?,
        from: u32::try_from(parse_count(options, "--from", 1)?).ok()?,
        flush: parse_count(options, "--flush", 1_000)?,
    };
    if ask.port >= 1 && (1..=10_000).contains(&ask.flush) {
        Some(ask)
    } else {
        None
    }
}

// The client's number, if one is given.
fn client_of(options: &[String]) -> Option<Option<u32>>
    ensures number { IfSome result
        (λ client. MayHaveInteger (codes "--client") client (map string_bytes options.now)) }
    ensures range { IfSome result
        (λ client. IfSome client (λ number. (1 ≤ number) × (number ≤ 4294967295))) }
{
    match parse_optional(options, "--client")? {
        Some(0) => None,
        Some(number) => Some(Some(u32::try_from(number).ok()?)),
        None => Some(None),
    }
}
