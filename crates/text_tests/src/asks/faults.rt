//! Runs that end early.
use super::answers::{BOTH, DONE, FIRST, PLAN, SHOWN, SHOWN_DONE, TOLD, broken, server};
use super::servers::{Case, expect_run};
use ask_client::{AskFault, AskPlan};
use sb_calls::CallFault;

// `balance alice` as the last request of client 7, and its outcome.
const LAST: &[u8] = b"\0\x10\x01\0\0\0\x07\xff\xff\xff\xff\x01\x05alice\0\x01\x06";

const SHOWN_LAST: &[u8] = b"\0\x13\x05\0\0\0\x07\xff\xff\xff\xff\0\0\0\0\0\0\0\0\x3a\x98";

#[test]
fn lines_that_are_not_asked(rt: HostRuntime) {
    let servers = [server(SHOWN, FIRST)];
    let case = Case {
        input: b"balance alice\nbalance\ndeposit bob 5.00\n",
        servers: &servers,
        printed: b"1 shown 150.00\n",
        ended: Err(AskFault::Line {
            line: 2,
            fault: CallFault::WrongWords,
        }),
        ..TOLD
    };
    expect_run(&rt, rt.alloc(), "the second line", case);
    let case = Case {
        input: b"\n",
        servers: &[],
        printed: b"",
        ended: Err(AskFault::Line {
            line: 1,
            fault: CallFault::UnknownVerb,
        }),
        ..TOLD
    };
    expect_run(&rt, rt.alloc(), "an empty line", case);
    let servers = [server(SHOWN_LAST, LAST)];
    let plan = AskPlan {
        first: u32::MAX,
        ..PLAN
    };
    let case = Case {
        plan,
        servers: &servers,
        printed: b"4294967295 shown 150.00\n",
        ended: Err(AskFault::NoNumber(2)),
        ..TOLD
    };
    expect_run(&rt, rt.alloc(), "no number is left", case);
}

#[test]
fn bytes_that_are_no_outcome_or_one_too_many(rt: HostRuntime) {
    let servers = [server(b"HTTP/1.1 400 Bad Request", BOTH)];
    let case = Case {
        servers: &servers,
        printed: b"",
        ended: Err(AskFault::Unexpected),
        ..TOLD
    };
    expect_run(&rt, rt.alloc(), "no frame", case);
    let servers = [server(DONE, BOTH)];
    let case = Case {
        servers: &servers,
        ..case
    };
    expect_run(&rt, rt.alloc(), "another request's outcome", case);
    let servers = [server(FIRST, BOTH)];
    let case = Case {
        servers: &servers,
        ..case
    };
    expect_run(&rt, rt.alloc(), "an ask", case);
    let servers = [server(SHOWN_DONE, FIRST)];
    let case = Case {
        input: b"balance alice\n",
        servers: &servers,
        printed: b"1 shown 150.00\n",
        ended: Err(AskFault::Unexpected),
        ..TOLD
    };
    expect_run(&rt, rt.alloc(), "one outcome too many", case);
}

#[test]
fn connections_that_fail(rt: HostRuntime) {
    let case = Case {
        printed: b"",
        ended: Err(AskFault::Connection),
        ..TOLD
    };
    expect_run(&rt, rt.alloc(), "nobody is there", case);
    let servers = [broken(SHOWN_DONE, BOTH)];
    let case = Case {
        servers: &servers,
        printed: b"1 shown 150.00\n2 done\n",
        ended: Err(AskFault::End),
        ..TOLD
    };
    expect_run(&rt, rt.alloc(), "the server dies at the end", case);
}
