//! The program's words.
use crate::serving::{HERE, PLAN};
use clap::Error;
use program_words::{
    AskWords, CheckpointView, CheckpointWords, Listing, LogAction, LogWords, Plan, RunWords,
    ServeWords, Words, read_words, refuse_bytes,
};
use std::alloc::Global;
use std::net::{IpAddr, Ipv4Addr, Ipv6Addr};
use std::process::Abort;

// A run with these nodes and workers.
fn run_of(nodes: usize, workers: usize) -> Words<'static> {
    Words::Run(RunWords {
        nodes,
        workers,
        strict: false,
    })
}

// These words after the program's name.
fn words_of(rt: &impl Abort, alloc: Global, words: &[&str]) -> Vec<String> {
    let mut all: Vec<String> = Vec::new(alloc);
    push(rt, alloc, "smallbank", &mut all);
    for word in words {
        push(rt, alloc, word, &mut all);
    }
    all
}

fn push(rt: &impl Abort, alloc: Global, word: &str, all: &mut Vec<String>) {
    let word = String::from_str(alloc, word).expect(rt, "memory for a word");
    all.push(word).expect(rt, "memory for a word");
}

// These words are read so.
fn expect(rt: &impl Abort, alloc: Global, words: &[&str], wanted: Words) {
    let all = words_of(rt, alloc, words);
    match read_words(alloc, &all) {
        Ok(read) => assert!(rt; read == wanted),
        Err(_) => assert!(rt; false),
    }
}

// These words end with this status, and with a text that has this part.
fn expect_told(rt: &impl Abort, alloc: Global, words: &[&str], status: i32, part: &str) {
    let all = words_of(rt, alloc, words);
    let error = read_words(alloc, &all).err().expect(rt, "a fault");
    expect_error(rt, alloc, &error, status, part);
}

// This fault of words ends with this status, and with a text that has this part.
fn expect_error(rt: &impl Abort, alloc: Global, error: &Error, status: i32, part: &str) {
    assert!(rt; error.exit_code() == status);
    let told = format!(in alloc; "{error}").expect(rt, "memory for a text");
    assert!(rt; told.as_str().contains(part), "{part}");
}

#[test]
fn words_of_the_program(rt: HostRuntime) {
    let alloc = rt.alloc();
    let both = run_of(16, 16);
    let two = run_of(2, 0);
    expect(&rt, alloc, &[], run_of(1, 0));
    expect(&rt, alloc, &["run"], run_of(1, 0));
    expect(&rt, alloc, &["run", "--nodes", "16", "--workers=16"], both);
    expect(&rt, alloc, &["run", "--workers", "16", "--nodes=16"], both);
    expect(&rt, alloc, &["run", "--nodes", "2"], two);
    expect(&rt, alloc, &["play"], Words::Play);
    for words in [
        ["run", "--strict", "--nodes=3"],
        ["run", "--nodes=3", "--strict"],
    ] {
        let strict = RunWords {
            nodes: 3,
            workers: 0,
            strict: true,
        };
        expect(&rt, alloc, &words, Words::Run(strict));
    }
}

// A bank that is served with no option but the port.
const SERVED_AS_USUAL: Plan = Plan {
    is_quiet: false,
    ..PLAN
};

// A bank that is served with the greatest number for each option.
const SERVED_AT_MOST: Plan = Plan {
    host: HERE,
    sessions: 1_000,
    clients: None,
    nodes: 16,
    workers: 16,
    saves: true,
    patience: Some(86_400),
    is_quiet: false,
};

// A bank that is served so.
fn served_at<'a>(port: u16, plan: Plan, store: &'a str, log: Option<&'a str>) -> Words<'a> {
    Words::Serve(ServeWords {
        port,
        plan,
        store,
        log,
    })
}

#[test]
fn words_of_a_server(rt: HostRuntime) {
    let alloc = rt.alloc();
    let usual = served_at(0, SERVED_AS_USUAL, ".", None);
    let all = served_at(65_535, SERVED_AT_MOST, "a folder", None);
    expect(&rt, alloc, &["serve", "--port", "0"], usual);
    let apart = [
        "serve",
        "--store",
        "a folder",
        "--workers",
        "16",
        "--nodes",
        "16",
        "--patience",
        "86400",
        "--port=65535",
        "--sessions=1000",
    ];
    let joined = [
        "serve",
        "--sessions=1000",
        "--port=65535",
        "--store=a folder",
        "--nodes=16",
        "--workers=16",
        "--patience=86400",
    ];
    expect(&rt, alloc, &apart, all);
    expect(&rt, alloc, &joined, all);
}

#[test]
fn words_of_a_quiet_server(rt: HostRuntime) {
    let plan = Plan {
        is_quiet: true,
        ..SERVED_AS_USUAL
    };
    let quiet = served_at(0, plan, ".", None);
    expect(&rt, rt.alloc(), &["serve", "--port=0", "--quiet"], quiet);
}

#[test]
fn words_of_a_server_at_an_address(rt: HostRuntime) {
    let every = IpAddr::V4(Ipv4Addr::UNSPECIFIED);
    let local = IpAddr::V6(Ipv6Addr::LOCALHOST);
    for (words, port, host) in [
        (
            ["serve", "--listen=0.0.0.0:4000", "--nodes=1"],
            4_000,
            every,
        ),
        (["serve", "--listen=[::1]:0", "--nodes=1"], 0, local),
        (["serve", "--nodes=1", "--port=7"], 7, HERE),
    ] {
        let plan = Plan {
            host,
            ..SERVED_AS_USUAL
        };
        expect(&rt, rt.alloc(), &words, served_at(port, plan, ".", None));
    }
    let refused: [(&[&str], &str); 6] = [
        (&["serve", "--port=1", "--listen=[::1]:2"], "--listen"),
        (&["serve", "--listen"], "<ADDRESS:PORT>"),
        (&["serve", "--listen=4000"], "an address as 0.0.0.0:4000"),
        (&["serve", "--listen=::1"], "an address as 0.0.0.0:4000"),
        (
            &["serve", "--listen=bank:4000"],
            "an address as 0.0.0.0:4000",
        ),
        (
            &["serve", "--listen=[fe80::1%2]:4000"],
            "an address as 0.0.0.0:4000",
        ),
    ];
    expect_refused(&rt, rt.alloc(), &refused);
}

#[test]
fn words_of_a_server_of_many_clients(rt: HostRuntime) {
    let endless = Plan {
        sessions: usize::MAX,
        clients: Some(1_000),
        ..SERVED_AS_USUAL
    };
    let counted = Plan {
        sessions: 2_000,
        clients: Some(1),
        ..SERVED_AS_USUAL
    };
    for (words, plan) in [
        (
            ["serve", "--clients", "1000", "--port=0", "--nodes=1"],
            endless,
        ),
        (
            ["serve", "--port", "0", "--sessions=2000", "--clients=1"],
            counted,
        ),
    ] {
        let read = served_at(0, plan, ".", None);
        expect(&rt, rt.alloc(), &words, read);
    }
}

#[test]
fn words_of_a_server_with_a_log(rt: HostRuntime) {
    let alloc = rt.alloc();
    let usual = Plan {
        sessions: usize::MAX,
        clients: Some(100),
        patience: Some(60),
        ..SERVED_AS_USUAL
    };
    let few = Plan {
        sessions: 1_000_000,
        clients: Some(2),
        patience: Some(86_400),
        ..SERVED_AS_USUAL
    };
    let words = ["serve", "--port=0", "--log", "bank", "--nodes=1"];
    expect(&rt, alloc, &words, served_at(0, usual, ".", Some("bank")));
    let words = [
        "serve",
        "--log=bank",
        "--port",
        "0",
        "--sessions=1000000",
        "--clients=2",
        "--patience=86400",
    ];
    expect(&rt, alloc, &words, served_at(0, few, ".", Some("bank")));
}

#[test]
fn words_of_a_log(rt: HostRuntime) {
    let alloc = rt.alloc();
    let folder = "bank";
    let of = |action| Words::Log(LogWords { folder, action });
    let asks = LogAction::List(Listing::Asks);
    expect(&rt, alloc, &["log", "bank"], of(asks));
    let cases = [
        ("--rows", LogAction::List(Listing::Rows)),
        ("--check", LogAction::List(Listing::Check)),
        ("--cut", LogAction::Cut),
    ];
    for (flag, action) in cases {
        expect(&rt, alloc, &["log", "bank", flag], of(action));
        expect(&rt, alloc, &["log", flag, "bank"], of(action));
    }
    let refused: [(&[&str], &str); 4] = [
        (&["log"], "<FOLDER>"),
        (&["log", "bank", "other"], "other"),
        (&["log", "bank", "--rows", "--check"], "one flag at most"),
        (&["log", "bank", "--all"], "--all"),
    ];
    expect_refused(&rt, alloc, &refused);
}

#[test]
fn words_of_a_client(rt: HostRuntime) {
    let usual = AskWords {
        port: 4_000,
        client: None,
        from: 1,
        flush: 1_000,
    };
    let most = AskWords {
        port: 65_535,
        client: Some(4_294_967_295),
        from: 4_294_967_295,
        flush: 10_000,
    };
    expect(
        &rt,
        rt.alloc(),
        &["ask", "--port", "4000"],
        Words::Ask(usual),
    );
    let words = [
        "ask",
        "--flush=10000",
        "--from",
        "4294967295",
        "--client=4294967295",
        "--port",
        "65535",
    ];
    expect(&rt, rt.alloc(), &words, Words::Ask(most));
}

#[test]
fn refused_words_of_a_client(rt: HostRuntime) {
    let cases: [(&[&str], &str); 6] = [
        (&["ask"], "--port <1..65535>"),
        (&["ask", "--port", "0"], "0 is not in 1..=65535"),
        (
            &["ask", "--port=1", "--client=0"],
            "0 is not in 1..=4294967295",
        ),
        (
            &["ask", "--port=1", "--from=4294967296"],
            "4294967296 is not in 0..=4294967295",
        ),
        (&["ask", "--port=1", "--flush=0"], "0 is not in 1..=10000"),
        (&["ask", "--port=1", "calls"], "calls"),
    ];
    expect_refused(&rt, rt.alloc(), &cases);
}

#[test]
fn words_of_a_checkpoint(rt: HostRuntime) {
    let alloc = rt.alloc();
    let file = "node0.ckpt";
    let of = |view| Words::Checkpoint(CheckpointWords { file, view });
    let named = of(CheckpointView::Opening("bank.txt"));
    let whole = of(CheckpointView::Check);
    let balances = of(CheckpointView::Balances);
    expect(&rt, alloc, &["checkpoint", "node0.ckpt"], balances);
    expect(&rt, alloc, &["checkpoint", "node0.ckpt", "--check"], whole);
    expect(&rt, alloc, &["checkpoint", "--check", "node0.ckpt"], whole);
    let cases: [&[&str]; 4] = [
        &["checkpoint", "node0.ckpt", "--opening", "bank.txt"],
        &["checkpoint", "--opening", "bank.txt", "node0.ckpt"],
        &["checkpoint", "node0.ckpt", "--opening=bank.txt"],
        &["checkpoint", "--opening=bank.txt", "node0.ckpt"],
    ];
    for words in cases {
        expect(&rt, alloc, words, named);
    }
    let refused: [(&[&str], &str); 4] = [
        (&["checkpoint"], "<FILE>"),
        (&["checkpoint", "a", "b"], "b"),
        (&["checkpoint", "a", "--opening"], "<TEXT>"),
        (
            &["checkpoint", "a", "--check", "--opening=b"],
            "one flag at most",
        ),
    ];
    expect_refused(&rt, alloc, &refused);
}

// Each of these words is refused, with a text that has this part.
fn expect_refused(rt: &impl Abort, alloc: Global, cases: &[(&[&str], &str)]) {
    for (words, part) in cases {
        expect_told(rt, alloc, words, 2, part);
    }
}

#[test]
fn refused_words_of_a_server(rt: HostRuntime) {
    let cases: [(&[&str], &str); 14] = [
        (&["serve", "--port", "65536"], "65536 is not in 0..=65535"),
        (&["serve", "--port", "http"], "<0..65535>"),
        (
            &["serve", "--sessions", "0", "--port=1"],
            "0 is not in 1..=9223372036854775807",
        ),
        (
            &["serve", "--sessions", "1001", "--port=1"],
            "1 to 1000 sessions without these or a log",
        ),
        (
            &["serve", "--clients=0", "--port=1"],
            "0 is not in 1..=1000",
        ),
        (
            &["serve", "--clients", "1001", "--port=1"],
            "1001 is not in 1..=1000",
        ),
        (
            &["serve", "--nodes", "17", "--port=1"],
            "17 is not in 1..=16",
        ),
        (
            &["serve", "--workers", "17", "--port=1"],
            "17 is not in 0..=16",
        ),
        (
            &["serve", "--patience", "0", "--port=1"],
            "0 is not in 1..=86400",
        ),
        (
            &["serve", "--patience=86401", "--port=1"],
            "86401 is not in 1..=86400",
        ),
        (&["serve"], "--port <0..65535>"),
        (&["serve", "--port"], "<0..65535>"),
        (&["serve", "--port=1", "--store"], "<FOLDER>"),
        (&["serve", "--port=1", "--port=2"], "--port"),
    ];
    expect_refused(&rt, rt.alloc(), &cases);
}

#[test]
fn refused_words(rt: HostRuntime) {
    let cases: [(&[&str], &str); 10] = [
        (&["run", "--strict=1"], "--strict"),
        (&["run", "--nodes", "0"], "0 is not in 1..=16"),
        (&["run", "--nodes", "17"], "17 is not in 1..=16"),
        (&["run", "--workers", "17"], "17 is not in 0..=16"),
        (&["run", "--nodes", "two"], "<1..16>"),
        (&["run", "--workers=-0"], "<0..16>"),
        (&["run", "--nodes"], "<1..16>"),
        (&["run", "--nodes=2", "--nodes=3"], "--nodes"),
        (&["play", "again"], "again"),
        (&["server"], "server"),
    ];
    expect_refused(&rt, rt.alloc(), &cases);
}

#[test]
fn help_and_version(rt: HostRuntime) {
    let alloc = rt.alloc();
    let example = "printf 'alice 100.00 50.00\\nbegin\\ndeposit alice 1.00\\n' \
        | smallbank run --nodes 2\n";
    expect_told(&rt, alloc, &["--version"], 0, "smallbank ");
    expect_told(&rt, alloc, &["--help"], 0, "Plays a schedule");
    expect_told(&rt, alloc, &["run", "--help"], 0, example);
    let example = "printf 'alice 100.00 50.00\\nbegin\\n' | smallbank serve --port 4000\n";
    expect_told(&rt, alloc, &["serve", "--help"], 0, example);
}

#[test]
fn words_of_bytes_that_are_no_text(rt: HostRuntime) {
    let error = refuse_bytes(rt.alloc());
    expect_error(&rt, rt.alloc(), &error, 2, "a word isn't UTF-8");
}
