//! The subcommands, as help describes them.
use crate::option_words::{
    CHECK, CHECK_LOG, CLIENT, CLIENTS, CUT, FILE, FLUSH, FOLDER, FROM, LISTEN, LOG_FOLDER,
    NODE_COUNT, OPENING, PATIENCE, PORT, QUIET, ROWS, SERVER_PORT, SESSIONS, STORE, STRICT,
    WORKER_COUNT, Word,
};

/// A subcommand as help describes it.
#[derive(Clone, Copy)]
pub(crate) struct Subcommand {
    pub(crate) name: &'static str,
    /// In one line.
    pub(crate) about: &'static str,
    pub(crate) long_about: &'static str,
    pub(crate) after_help: &'static str,
    /// In the order in which help lists them.
    pub(crate) words: &'static [Word],
}

const RUN: Subcommand = Subcommand {
    name: "run",
    about: "Runs calls from standard input",
    long_about: "Runs calls from standard input.

Reads an opening, which is a line `NAME SAVINGS CHECKING` a customer and then the line `begin`, and
after it a call a line: `balance N`, `deposit N V`, `savings N V`, `check N V`, `amalgamate N1 N2`,
`pay N1 N2 V`. Writes a line for each call, the rows of all customers, and the total. What is written
is the same whatever the nodes and workers.",
    after_help: "Example:
  printf 'alice 100.00 50.00\\nbegin\\ndeposit alice 1.00\\n' | smallbank run --nodes 2
prints
  1 done
  alice 100.00 51.00
  total 151.00

Exit status: 0 when done, 1 if the input is refused (`smallbank: line L: FAULT`; nothing is written
then), 2 if the words are, and 3 for all else. docs/FORMATS.md has the whole format.",
    words: &[NODE_COUNT, WORKER_COUNT, STRICT],
};

const PLAY: Subcommand = Subcommand {
    name: "play",
    about: "Plays a schedule from standard input",
    long_about: "Plays a schedule of events from standard input, without threads.

Reads a line `nodes N workers W`, each 1 to 16, an opening, as `run` does, and an event a line. R, A
and B are replicas, from 0, W is a worker, and K the position of what was sent, both from 1.
  ask C R CALL, append C R CALL, sync, crash K   requests, and the log's disk
  send R N, resend R, to R K, next R             entries on their way to a replica
  ack R, have R, answer R N, from R K            what a replica sends back
  take R W I, finish R W                         a worker's job
  cut R, mark R HOW, restart R                   checkpoints; HOW is ok, old or new
  donor R, give A R, adopt R K, audit A B        states of others, and a comparison
Writes a note for each event, and then the length, the rows and the total of each replica.",
    after_help: "Example:
  printf 'nodes 1 workers 1\\nann 1.00 0.00\\nbegin\\nask 7 1 balance ann\\nsend 0 1\\nto 0 1\\n' | smallbank play
prints
  new 1
  sent 1
  accepted 1
  replica 0 length 1 busy

Exit status: 0 when done, 1 if the input is refused (`smallbank: line L: FAULT`; nothing is written
then), 2 if the words are, and 3 for all else. docs/FORMATS.md has the notes.",
    words: &[],
};

const SERVE: Subcommand = Subcommand {
    name: "serve",
    about: "Serves clients over TCP",
    long_about: "Serves clients over TCP: one after the other, or with --clients N up to N at once, with --log up to
100. Without --listen it does so on this machine alone.

Reads an opening from standard input, as `run` does, with nothing behind its line `begin`. Prints where
it listens, a line as each session ends, and at the end the rows of all customers and the total. A
client at fault ends its own session, which is told by the number of the fault: 1 is a bad frame, 2 a
frame that is no request, 4 a connection that broke, or was waited for longer than --patience says,
and 7 too many requests before a flush.

With --log each request is in FOLDER/log, and on the disk, before its client is told the outcome. A
server that starts on such a log goes on with it. It prints a line `log CALLS DIGEST` first, and again
before the rows. Fault 6 is one of the log: the server ends, and what it told is kept.",
    after_help: "Example:
  printf 'alice 100.00 50.00\\nbegin\\n' | smallbank serve --port 4000
prints, once a client has deposited 1.00 for alice
  listening 127.0.0.1:4000
  session 1 ok
  alice 100.00 51.00
  total 151.00

Exit status: 0 when done, 1 if the opening is refused (`smallbank: line L: FAULT`; nothing is served
then), 2 if the words are, and 3 for all else. docs/OPERATING.md says what each line means, and
docs/WIRE.md what clients send.",
    words: &[
        PORT,
        LISTEN,
        SESSIONS,
        CLIENTS,
        NODE_COUNT,
        WORKER_COUNT,
        STORE,
        LOG_FOLDER,
        PATIENCE,
        QUIET,
    ],
};

const LOG: Subcommand = Subcommand {
    name: "log",
    about: "Lists a log, or cuts off what follows its last whole record",
    long_about: "Lists the log that a server keeps in FOLDER/log.

Prints the opening, `begin`, and a line `ask CLIENT REQUEST CALL` for each ask, which are an input of
`run`. The file isn't locked, and stays as it is; a record at its end that isn't whole is left out.
After damage, of which nothing is printed but the byte, `--cut` is a way on: it moves what follows the
last whole record to FOLDER/log.rest, unless that is there, and prints the line of the log that is left.",
    after_help: "Exit status: 0 when done, 1 without a log or after damage (`smallbank: log: FAULT`), 2 if the
words are refused, and 3 for all else. docs/OPERATING.md says what to do after damage.",
    words: &[FOLDER, ROWS, CHECK_LOG, CUT],
};

const ASK: Subcommand = Subcommand {
    name: "ask",
    about: "Asks a bank that is served",
    long_about: "Asks a bank that `serve` serves, at 127.0.0.1.

Reads a call a line from standard input, as `run` does after its `begin`. Sends each under the client's
number and the next request number, with a flush after those that each read gave, and prints a line
`REQUEST OUTCOME` for each: a reply as `run` prints it, `mismatch` or `log full`. If the connection
breaks it makes another one, and asks again from the first request that has no outcome. What is asked
again is not done again. At the end it waits until the server has ended the session too.",
    after_help: "Example:
  printf 'deposit alice 1.00\\nbalance alice\\n' | smallbank ask --port 4000 --client 7
prints
  1 done
  2 shown 151.00

Exit status: 0 when all was told and the session ended, 1 if a line is no call (`smallbank: line L:
FAULT`; the lines before it are asked and told), 2 if the words are refused, and 3 for all else: what was
printed stands, and --client and --from with the first number that wasn't go on from there.",
    words: &[SERVER_PORT, CLIENT, FROM, FLUSH],
};

const CHECKPOINT: Subcommand = Subcommand {
    name: "checkpoint",
    about: "Prints a checkpoint",
    long_about: "Prints a checkpoint that a server keeps as FOLDER/node0.ckpt.

Prints `checkpoint LENGTH`, the number of calls before it, `customers COUNT`, `total TOTAL`, `opening
TOTAL` and a line `PLACE SAVINGS CHECKING` for each customer, from place 0, in the opening's order.",
    after_help: "Example:
  smallbank checkpoint bank/node0.ckpt --opening opening.txt
prints the rows by name and `begin`, which is an opening for `run` and `serve`.

Exit status: 0 when done, 1 if it is no checkpoint, or one of another bank than the opening's
(`smallbank: checkpoint: FAULT`), 2 if the words are refused, and 3 for all else. docs/WIRE.md has
its bytes and the faults.",
    words: &[FILE, OPENING, CHECK],
};

/// All subcommands, in the order in which help lists them.
pub(crate) const SUBCOMMANDS: &[Subcommand] = &[RUN, PLAY, SERVE, LOG, ASK, CHECKPOINT];
