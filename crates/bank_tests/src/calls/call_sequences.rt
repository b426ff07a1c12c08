//! Calls executed one by one, with replies and balances worked by hand.
use super::bank::{Bank, OPENING, execute_call, open_bank};
use crate::fixtures::{expect, expect_columns};
use sb_amount::LIMIT;
use sb_calls::{Reply, read_call};
use std::alloc::Global;
use std::process::Abort;

// Calls of a bank, each with its reply, and the bank's balances after them.
#[derive(Clone, Copy)]
struct Case<'a> {
    opening: &'a str,
    calls: &'a [(&'a str, Reply)],
    savings: &'a [i64],
    checking: &'a [i64],
}

const CASES: &[Case<'static>] = &[
    Case {
        opening: OPENING,
        calls: &[
            ("balance alice", Reply::Shown(15000)),
            ("deposit bob 5.00", Reply::Done),
            ("savings carol -10.00", Reply::Done),
            // Alice pays exactly what she has: no penalty.
            ("check alice 150.00", Reply::Done),
            ("amalgamate alice bob", Reply::Done),
        ],
        savings: &[0, 0, 0],
        checking: &[0, 2500, 0],
    },
    Case {
        opening: OPENING,
        calls: &[
            ("check bob 20.01", Reply::Penalised),
            // The balance that moves is below 0.
            ("amalgamate bob carol", Reply::Done),
        ],
        savings: &[10000, 0, 1000],
        checking: &[5000, 0, -101],
    },
    Case {
        opening: OPENING,
        calls: &[
            ("savings carol -10.01", Reply::WouldOverdraw),
            ("amalgamate zed zed", Reply::NoCustomer),
            ("amalgamate bob bob", Reply::SameCustomer),
            ("deposit bob -0.01", Reply::Negative),
            ("deposit bob 9999999980.01", Reply::OverLimit),
            ("deposit bob 9999999980.00", Reply::Done),
        ],
        savings: &[10000, 0, 1000],
        checking: &[5000, LIMIT, 0],
    },
    Case {
        opening: OPENING,
        calls: &[
            ("pay bob alice 20.00", Reply::Done),
            ("pay alice bob 70.01", Reply::WouldOverdraw),
            ("pay bob carol 0.01", Reply::WouldOverdraw),
            ("pay zed zed 1.00", Reply::NoCustomer),
            ("pay bob bob -1.00", Reply::SameCustomer),
            ("pay alice bob -0.01", Reply::Negative),
        ],
        savings: &[10000, 0, 1000],
        checking: &[7000, 0, 0],
    },
    Case {
        opening: "a 0.00 0.01\nb 0.00 10000000000.00\nbegin\n",
        calls: &[("pay a b 0.01", Reply::OverLimit)],
        savings: &[0, 0],
        checking: &[1, LIMIT],
    },
];

// Checks the reply to a line.
fn expect_reply(rt: &impl Abort, bank: &mut Bank, line: &str, wanted: Reply) {
    let call = read_call(line.as_bytes()).expect(rt, "a call");
    expect(rt, execute_call(rt, bank, &call) == wanted, line);
}

fn expect_case(rt: &impl Abort, alloc: Global, case: &Case) {
    let mut bank = open_bank(rt, alloc, case.opening);
    for (line, wanted) in case.calls {
        expect_reply(rt, &mut bank, line, *wanted);
    }
    expect_columns(rt, &bank.columns, case.savings, case.checking);
}

#[test]
fn calls_one_by_one(rt: HostRuntime) {
    for case in CASES {
        expect_case(&rt, rt.alloc(), case);
    }
}
