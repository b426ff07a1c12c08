//! The texts of faults, and the words of replies.
use crate::fixtures::{expect, expect_bytes};
use sb_amount::MoneyFault;
use sb_calls::{CallFault, Reply, print_reply, replies_are_short, write_reply};
use sb_rows::{LineFault, OpeningFault};
use std::alloc::Global;
use std::process::Abort;

const MONEY: &[(MoneyFault, &str)] = &[
    (MoneyFault::Empty, "empty"),
    (MoneyFault::NotDigit, "not a digit"),
    (MoneyFault::BadDecimals, "bad decimals"),
    (MoneyFault::NotCanonical, "not canonical"),
    (MoneyFault::TooLarge, "too large"),
];

const LINES: &[(LineFault, &str)] = &[
    (LineFault::BadLine, "line 7: bad line"),
    (LineFault::BadName, "line 7: bad name"),
    (LineFault::DoubleName, "line 7: double name"),
    (LineFault::BadMoney, "line 7: bad money"),
    (LineFault::NegativeSavings, "line 7: negative savings"),
    (LineFault::TooMany, "line 7: too many customers"),
    (LineFault::NoBegin, "line 7: no begin"),
];

const CALLS: &[(CallFault, &str)] = &[
    (CallFault::UnknownVerb, "unknown verb"),
    (CallFault::WrongWords, "wrong words"),
    (CallFault::BadName, "bad name"),
    (CallFault::BadMoney, "bad money"),
    (CallFault::BadNumber, "bad number"),
];

// Checks the text of a fault.
fn expect_shown(rt: &impl Abort, alloc: Global, fault: &impl ToString, words: &str) {
    let shown = fault.to_string(alloc).expect(rt, "memory for a text");
    expect_bytes(rt, shown.as_bytes(), words.as_bytes(), words);
}

#[test]
fn texts_of_faults(rt: HostRuntime) {
    for (fault, words) in MONEY {
        expect_shown(&rt, rt.alloc(), fault, words);
    }
    for (fault, words) in LINES {
        let (line, fault) = (7, *fault);
        expect_shown(&rt, rt.alloc(), &OpeningFault::Line { line, fault }, words);
    }
    expect_shown(&rt, rt.alloc(), &OpeningFault::OutOfMemory, "out of memory");
    for (fault, words) in CALLS {
        expect_shown(&rt, rt.alloc(), fault, words);
    }
}

const REPLIES: &[(Reply, &str)] = &[
    (Reply::Shown(15000), "shown 150.00"),
    (Reply::Done, "done"),
    (Reply::Penalised, "penalised"),
    (Reply::NoCustomer, "no customer"),
    (Reply::SameCustomer, "same customer"),
    (Reply::Negative, "negative"),
    (Reply::WouldOverdraw, "would overdraw"),
    (Reply::OverLimit, "over limit"),
];

// Checks the words of a reply, by themselves and before the last byte of a slice.
fn expect_words(rt: &impl Abort, reply: Reply, words: &str) {
    expect(rt, print_reply(reply).as_str() == words, words);
    let mut text = [b'#'; 64];
    replies_are_short(reply);
    let start = write_reply(reply, &mut text, 63);
    let written = text[start..].strip_suffix(b"#").unwrap_or(b"");
    expect_bytes(rt, written, words.as_bytes(), words);
}

#[test]
fn replies_in_words(rt: HostRuntime) {
    for (reply, words) in REPLIES {
        expect_words(&rt, *reply, words);
    }
}
