//! Runs that are told all they ask, over one connection or more.
use super::servers::{Case, Server, expect_run};
use ask_client::AskPlan;

/// Client 7, whose first request is 1.
pub(crate) const PLAN: AskPlan = AskPlan {
    client: 7,
    first: 1,
    batch: 100,
};

/// What asks `balance alice` and `deposit bob 5.00` at once, as requests 1 and 2 of client 7.
pub(crate) const BOTH: &[u8] = b"\0\x10\x01\0\0\0\x07\0\0\0\x01\x01\x05alice\
    \0\x16\x01\0\0\0\x07\0\0\0\x02\x02\x03bob\0\0\0\0\0\0\x01\xf4\0\x01\x06";

/// What asks only the first, or only the second.
pub(crate) const FIRST: &[u8] = b"\0\x10\x01\0\0\0\x07\0\0\0\x01\x01\x05alice\0\x01\x06";

const SECOND: &[u8] = b"\0\x16\x01\0\0\0\x07\0\0\0\x02\x02\x03bob\0\0\0\0\0\0\x01\xf4\0\x01\x06";

// What asks one after the other.
const EACH: &[u8] = b"\0\x10\x01\0\0\0\x07\0\0\0\x01\x01\x05alice\0\x01\x06\
    \0\x16\x01\0\0\0\x07\0\0\0\x02\x02\x03bob\0\0\0\0\0\0\x01\xf4\0\x01\x06";

/// Their outcomes, `shown 150.00` and `done`, each alone and both.
pub(crate) const SHOWN: &[u8] = b"\0\x13\x05\0\0\0\x07\0\0\0\x01\0\0\0\0\0\0\0\0\x3a\x98";

pub(crate) const DONE: &[u8] = b"\0\x13\x05\0\0\0\x07\0\0\0\x02\0\x01\0\0\0\0\0\0\0\0";

pub(crate) const SHOWN_DONE: &[u8] = b"\0\x13\x05\0\0\0\x07\0\0\0\x01\0\0\0\0\0\0\0\0\x3a\x98\
    \0\x13\x05\0\0\0\x07\0\0\0\x02\0\x01\0\0\0\0\0\0\0\0";

// A mismatch and a full log.
const REFUSED: &[u8] = b"\0\x13\x05\0\0\0\x07\0\0\0\x01\x01\0\0\0\0\0\0\0\0\0\
    \0\x13\x05\0\0\0\x07\0\0\0\x02\x02\0\0\0\0\0\0\0\0\0";

/// A run that asks both.
pub(crate) const TOLD: Case<'static> = Case {
    plan: PLAN,
    input: b"balance alice\ndeposit bob 5.00\n",
    servers: &[],
    printed: b"1 shown 150.00\n2 done\n",
    ended: Ok(()),
};

/// A server that sends this, in pieces of five bytes, ends its side, and must be sent that.
pub(crate) fn server<'t>(sends: &'t [u8], asked: &'t [u8]) -> Server<'t> {
    Server {
        sends,
        piece: 5,
        ends: true,
        takes: 1_000,
        asked,
    }
}

/// A server that sends this, whose connection breaks then.
pub(crate) fn broken<'t>(sends: &'t [u8], asked: &'t [u8]) -> Server<'t> {
    Server {
        ends: false,
        ..server(sends, asked)
    }
}

#[test]
fn a_batch_over_one_connection(rt: HostRuntime) {
    let servers = [server(SHOWN_DONE, BOTH)];
    let case = Case {
        servers: &servers,
        ..TOLD
    };
    expect_run(&rt, rt.alloc(), "two lines", case);
    let servers = [server(REFUSED, BOTH)];
    let case = Case {
        servers: &servers,
        printed: b"1 mismatch\n2 log full\n",
        ..TOLD
    };
    expect_run(&rt, rt.alloc(), "a mismatch and a full log", case);
    let case = Case {
        input: b"",
        printed: b"",
        ..TOLD
    };
    expect_run(&rt, rt.alloc(), "no line", case);
}

#[test]
fn a_flush_for_each(rt: HostRuntime) {
    let servers = [Server {
        piece: 21,
        ..server(SHOWN_DONE, EACH)
    }];
    let case = Case {
        input: b"balance alice\ndeposit bob 5.00",
        servers: &servers,
        ..TOLD
    };
    expect_run(&rt, rt.alloc(), "a last line without its end", case);
    let plan = AskPlan { batch: 1, ..PLAN };
    let case = Case {
        plan,
        servers: &servers,
        ..TOLD
    };
    expect_run(&rt, rt.alloc(), "a flush for each", case);
}

#[test]
fn a_batch_over_two_connections(rt: HostRuntime) {
    let servers = [broken(SHOWN, BOTH), server(DONE, SECOND)];
    let case = Case {
        servers: &servers,
        ..TOLD
    };
    expect_run(&rt, rt.alloc(), "the second is asked again", case);
    // It breaks within an outcome.
    let servers = [broken(&SHOWN_DONE[..40], BOTH), server(DONE, SECOND)];
    let case = Case {
        servers: &servers,
        ..TOLD
    };
    expect_run(&rt, rt.alloc(), "half an outcome counts as none", case);
}

#[test]
fn a_server_that_takes_little(rt: HostRuntime) {
    let deaf = Server {
        takes: 10,
        ..broken(b"", &BOTH[..10])
    };
    let servers = [deaf, server(SHOWN_DONE, BOTH)];
    let case = Case {
        servers: &servers,
        ..TOLD
    };
    expect_run(&rt, rt.alloc(), "all is asked again", case);
}
