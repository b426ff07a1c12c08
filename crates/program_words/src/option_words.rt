//! The words that each subcommand takes.
use sb_calls::{REPLICAS, WORKERS};

/// A word of a subcommand as help describes it. The words are data, so that few functions own an argument of clap.
#[derive(Clone, Copy)]
pub(crate) struct Word {
    pub(crate) name: &'static str,
    pub(crate) takes: Takes,
    pub(crate) standard: Option<&'static str>,
    pub(crate) needed: Needed,
    pub(crate) help: &'static str,
}

/// What a word takes, and how help shows that.
#[derive(Clone, Copy)]
pub(crate) enum Takes {
    /// It stands alone, without its name.
    Operand(&'static str),
    /// An option without a value.
    Nothing,
    /// An option with a text.
    Text(&'static str),
    /// An option with a number from the first to the last.
    Number(&'static str, i64, i64),
}

/// Whether a word has to be there.
#[derive(Clone, Copy)]
pub(crate) enum Needed {
    No,
    Always,
    /// If this other one isn't.
    Without(&'static str),
    /// No, and it can't be beside this other one.
    NeverWith(&'static str),
}

pub(crate) const NODE_COUNT: Word = Word {
    name: "nodes",
    takes: Takes::Number("1..16", 1, REPLICAS as i64),
    standard: Some("1"),
    needed: Needed::No,
    help: "How many nodes carry the calls out, each in a thread; all must end alike",
};

pub(crate) const WORKER_COUNT: Word = Word {
    name: "workers",
    takes: Takes::Number("0..16", 0, WORKERS as i64),
    standard: Some("0"),
    needed: Needed::No,
    help: "How many threads work for the first node; with 0 it works alone",
};

pub(crate) const STRICT: Word = Word {
    name: "strict",
    takes: Takes::Nothing,
    standard: None,
    needed: Needed::No,
    help: "Refuses an input whose last line doesn't end with a line feed: a part may be missing",
};

pub(crate) const PORT: Word = Word {
    name: "port",
    takes: Takes::Number("0..65535", 0, 65_535),
    standard: None,
    needed: Needed::Without("listen"),
    help: "Where to listen, at 127.0.0.1; with 0 at any free port",
};

pub(crate) const LISTEN: Word = Word {
    name: "listen",
    takes: Takes::Text("ADDRESS:PORT"),
    standard: None,
    needed: Needed::NeverWith("port"),
    help: "Where to listen instead, as 0.0.0.0:4000 or [::1]:4000. Nothing is encrypted",
};

pub(crate) const SESSIONS: Word = Word {
    name: "sessions",
    takes: Takes::Number("1..1000", 1, i64::MAX),
    standard: None,
    needed: Needed::No,
    help: "How many sessions there are before the program ends: 1 to 1000 or else 1, but for --log and --clients",
};

pub(crate) const CLIENTS: Word = Word {
    name: "clients",
    takes: Takes::Number("1..1000", 1, 1_000),
    standard: None,
    needed: Needed::No,
    help: "How many clients are served at once, with --log 100; one more is hung up on. Else one after the other",
};

pub(crate) const STORE: Word = Word {
    name: "store",
    takes: Takes::Text("FOLDER"),
    standard: None,
    needed: Needed::No,
    help: "Where the first node saves a checkpoint after each session, as node0.ckpt",
};

pub(crate) const LOG_FOLDER: Word = Word {
    name: "log",
    takes: Takes::Text("FOLDER"),
    standard: None,
    needed: Needed::No,
    help: "Where the log is kept, as log, before anyone is told an outcome; without --sessions there is no end",
};

pub(crate) const PATIENCE: Word = Word {
    name: "patience",
    takes: Takes::Number("1..86400", 1, 86_400),
    standard: None,
    needed: Needed::No,
    help: "For how many seconds a whole frame of a client, or a write to it, may take: with --log 60, else for ever",
};

pub(crate) const QUIET: Word = Word {
    name: "quiet",
    takes: Takes::Nothing,
    standard: None,
    needed: Needed::No,
    help: "Tells nothing of a session on standard error as it ends",
};

pub(crate) const FOLDER: Word = Word {
    name: "folder",
    takes: Takes::Operand("FOLDER"),
    standard: None,
    needed: Needed::Always,
    help: "Where the log is kept",
};

pub(crate) const ROWS: Word = Word {
    name: "rows",
    takes: Takes::Nothing,
    standard: None,
    needed: Needed::No,
    help: "Prints the rows after the log instead, as an opening",
};

pub(crate) const CHECK_LOG: Word = Word {
    name: "check",
    takes: Takes::Nothing,
    standard: None,
    needed: Needed::No,
    help: "Prints its line alone: the number of its calls, and its digest",
};

pub(crate) const CUT: Word = Word {
    name: "cut",
    takes: Takes::Nothing,
    standard: None,
    needed: Needed::No,
    help: "Moves what follows the last whole record to log.rest",
};

pub(crate) const SERVER_PORT: Word = Word {
    name: "port",
    takes: Takes::Number("1..65535", 1, 65_535),
    standard: None,
    needed: Needed::Always,
    help: "Where the server listens, at 127.0.0.1",
};

pub(crate) const CLIENT: Word = Word {
    name: "client",
    takes: Takes::Number("1..4294967295", 1, 4_294_967_295),
    standard: None,
    needed: Needed::No,
    help: "The client's number; without it one at random, which is told on standard error",
};

pub(crate) const FROM: Word = Word {
    name: "from",
    takes: Takes::Number("0..4294967295", 0, 4_294_967_295),
    standard: Some("1"),
    needed: Needed::No,
    help: "The number of the first request; each other has the next one",
};

pub(crate) const FLUSH: Word = Word {
    name: "flush",
    takes: Takes::Number("1..10000", 1, 10_000),
    standard: Some("1000"),
    needed: Needed::No,
    help: "How many requests are sent before their outcomes are asked for, at most",
};

pub(crate) const FILE: Word = Word {
    name: "file",
    takes: Takes::Operand("FILE"),
    standard: None,
    needed: Needed::Always,
    help: "Where the checkpoint is",
};

pub(crate) const OPENING: Word = Word {
    name: "opening",
    takes: Takes::Text("TEXT"),
    standard: None,
    needed: Needed::No,
    help: "Prints the rows by the names of the opening in this file instead, as an opening",
};

pub(crate) const CHECK: Word = Word {
    name: "check",
    takes: Takes::Nothing,
    standard: None,
    needed: Needed::No,
    help: "Prints its first line alone",
};
