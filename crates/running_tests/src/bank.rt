//! A board of ops over three customers, driven step by step.
ghost use Rattle.std.specs.Prelude.{◌≡◌, ◌<◌, ◌*◌, length, IfSome};
ghost use Rattle.sb_calls.specs.Cowns.{contents_of};

use cown_board::{Board, Done, Job, OPEN_BEHAVIOURS, SubmitFault};
use cown_workers::Crew;
use sb_calls::{Behaviour, Call, LOG_CALLS, Op, Reply, read_call, resolve};
use sb_rows::{Columns, Directory, Opening, read_opening};
use std::alloc::Global;
use std::process::Abort;

pub(crate) const OPENING: &str = "alice 100.00 50.00\nbob 0.00 20.00\ncarol 10.00 0.00\nbegin\n";

// A board over the columns of an opening, with the replies to the numbers before it, and the
// customers' names.
#[tactic(auto, using(sb_calls::proofs::CownColumns::two_cowns_a_customer))]
pub(crate) fn open_board<B: Behaviour>(
    rt: &impl Abort,
    alloc: Global,
    opening: &str,
    replies: Vec<Reply>,
) -> (Box<Board<B>>, Directory)
    ensures { length (contents_of result.0.value.opening) ≡ 2 * length result.1 }
{
    assert!(rt; replies.len() <= LOG_CALLS);
    let base = replies.len() as u64;
    let opening = read_opening(alloc, opening.as_bytes()).expect(rt, "an opening");
    let Opening {
        directory,
        columns,
        ..
    } = opening;
    let board = Board::open(alloc, columns, base, replies).expect(rt, "memory");
    (Box::new(alloc, board).expect(rt, "memory"), directory)
}

// The replies to this many numbers before those of a board.
pub(crate) fn earlier_replies(rt: &impl Abort, alloc: Global, count: usize) -> Vec<Reply> {
    let mut replies = Vec::new(alloc);
    replies.resize(count, Reply::Done).expect(rt, "memory");
    replies
}

// A board over the three, with the calls that these lines spell.
pub(crate) fn board_of(rt: &impl Abort, alloc: Global, lines: &[&str]) -> Box<Board<Op>> {
    let (mut board, directory) = open_board(rt, alloc, OPENING, Vec::new(alloc));
    submit_all(rt, &mut board, &directory, lines);
    board
}

fn submit_all(rt: &impl Abort, board: &mut Board<Op>, directory: &Directory, lines: &[&str])
    requires { length (contents_of board.old.opening) ≡ 2 * length directory.now }
{
    for line in lines {
        let call = read_call(line.as_bytes()).expect(rt, "a call");
        assert!(rt; board.submit(resolve(directory, &call)).is_ok());
    }
}

// A step on a board, with its answer.
#[derive(Clone, Copy)]
pub(crate) enum Step<'a> {
    // Submits the call that a line spells; it gets this number.
    Submit(u64, &'a str),
    // Hands out the behaviour that has this many ready ones before it; it has this number.
    Take(usize, u64),
    // At most this many are ready.
    TakeNone(usize),
    // The job that is out with this number is executed and taken back, with this reply.
    Finish(u64, Reply),
    // The first ready behaviour has this number; it is handed out, executed and taken back.
    Run(u64, Reply),
}

#[derive(Drop)]
pub(crate) struct Bank {
    board: Box<Board<Op>>,
    directory: Directory,
    // The jobs that were handed out and haven't come back.
    out: Vec<Job<Op>>,
    ghost places: { length (contents_of board.value.opening) ≡ 2 * length directory },
}

impl Bank {
    // A bank over the columns of an opening text, with the replies to the numbers before it.
    pub(crate) fn open_with(
        rt: &impl Abort,
        alloc: Global,
        opening: &str,
        replies: Vec<Reply>,
    ) -> Box<Bank> {
        let (board, directory) = open_board(rt, alloc, opening, replies);
        let bank = Bank {
            board,
            directory,
            out: Vec::new(alloc),
        };
        Box::new(alloc, bank).expect(rt, "memory")
    }

    // A bank over the columns of the three, without earlier replies.
    pub(crate) fn open(rt: &impl Abort, alloc: Global) -> Box<Bank> {
        Bank::open_with(rt, alloc, OPENING, Vec::new(alloc))
    }

    // Plays these steps, one after another.
    pub(crate) fn plays(&mut self, rt: &impl Abort, steps: &[Step<'_>]) {
        for step in steps {
            self.play(rt, *step);
        }
    }

    fn play(&mut self, rt: &impl Abort, step: Step<'_>) {
        match step {
            Step::Submit(number, line) => {
                let call = read_call(line.as_bytes()).expect(rt, "a call");
                self.submits(rt, number, &call);
            }
            Step::Take(index, number) => self.takes(rt, index, number),
            Step::TakeNone(index) => {
                assert!(rt; self.board.take_at(index).is_none(), "{index}");
            }
            Step::Finish(number, reply) => {
                let done = self.carry_out(rt, number);
                self.finishes(rt, done, reply);
            }
            Step::Run(number, reply) => {
                self.takes(rt, 0, number);
                assert!(rt; !self.board.idle(), "{number}");
                let done = self.carry_out(rt, number);
                self.finishes(rt, done, reply);
            }
        }
    }

    pub(crate) fn submit(&mut self, call: &Call) -> Result<u64, SubmitFault> {
        self.board.submit(resolve(&self.directory, call))
    }

    // The call is the next one, and has this number.
    pub(crate) fn submits(&mut self, rt: &impl Abort, number: u64, call: &Call) {
        assert!(rt; self.submit(call) == Ok(number), "{number}");
    }

    fn takes(&mut self, rt: &impl Abort, index: usize, number: u64) {
        let job = self.board.take_at(index).expect(rt, "a ready one");
        assert!(rt; job.number() == number, "{number}");
        self.out.push(job).expect(rt, "memory");
    }

    // Executes the job that is out with this number.
    fn carry_out(&mut self, rt: &impl Abort, number: u64) -> Done<Op> {
        let position = self.position_of(number).expect(rt, "a job with the number");
        self.out.remove(position).run()
    }

    // The position of the job with a number among those that are out.
    fn position_of(&self, number: u64) -> Option<usize>
        ensures { IfSome result (λ position. position < length self.now.out.items) }
    {
        self.out.iter().position(|job| job.number() == number)
    }

    // A result is taken back.
    fn finishes(&mut self, rt: &impl Abort, done: Done<Op>, reply: Reply) {
        let number = done.number();
        let found = self.board.finish(done).map_err(|back| back.number());
        assert!(rt; found == Ok(reply), "{number}");
        assert!(rt; self.board.reply(number) == Some(reply), "{number}");
    }

    // Executes the last of the ready ones; there are at most three.
    pub(crate) fn runs_last(&mut self, rt: &impl Abort) {
        let job = match self.board.take_at(2) {
            Some(job) => job,
            None => match self.board.take_at(1) {
                Some(job) => job,
                None => self.board.take_at(0).expect(rt, "a ready one"),
            },
        };
        assert!(rt; self.board.finish(job.run()).is_ok());
    }

    pub(crate) fn reserves(&mut self, additional: usize) -> bool {
        self.board.reserve(additional).is_ok()
    }

    pub(crate) fn length(&self) -> u64 {
        self.board.length()
    }

    pub(crate) fn idle(&self) -> bool {
        self.board.idle()
    }

    // Checks that nothing is unfinished, and that these are the balances.
    pub(crate) fn ends_with(&self, rt: &impl Abort, savings: [i64; 3], checking: [i64; 3]) {
        assert!(rt; self.idle());
        assert!(rt; has_balances(&self.board, savings, checking));
    }

    // Makes a cut, at the board's length.
    pub(crate) fn cuts(&mut self, rt: &impl Abort) {
        let length = self.length();
        assert!(rt; self.board.cut() == Ok(length));
        assert!(rt; self.board.cut_length() == Some(length));
    }

    // The cut has no columns yet.
    pub(crate) fn has_no_cut_columns(&self, rt: &impl Abort) {
        assert!(rt; self.board.cut_columns().is_none());
    }

    // The columns of the cut are those of another board.
    pub(crate) fn has_cut_of(&self, rt: &impl Abort, other: &Bank) {
        let cut = self.board.cut_columns().expect(rt, "a cut");
        let columns = other.board.final_columns().expect(rt, "columns");
        assert!(rt; are_same(cut, columns));
    }
}

// Whether these are the replies to the numbers from 1 on, and no further number has one.
pub(crate) fn replies(board: &Board<Op>, wanted: &[Option<Reply>]) -> bool {
    board.length() == wanted.len() as u64
        && wanted
            .iter()
            .zip(1..)
            .all(|(reply, number)| board.reply(number) == *reply)
}

// Whether these are the columns of the three. There are none while something is unfinished.
pub(crate) fn has_balances(board: &Board<Op>, savings: [i64; 3], checking: [i64; 3]) -> bool {
    match board.final_columns() {
        Some(columns) => {
            columns.savings() == savings.as_slice() && columns.checking() == checking.as_slice()
        }
        None => false,
    }
}

pub(crate) fn are_same(columns: &Columns, others: &Columns) -> bool {
    columns.savings() == others.savings() && columns.checking() == others.checking()
}

// Copies the columns after the whole log, if there are any.
pub(crate) fn copies_its_columns(rt: &impl Abort, board: &Board<Op>) {
    let settled = board.final_columns().expect(rt, "columns");
    match board.columns() {
        Ok(Some(columns)) => assert!(rt; are_same(&columns, settled)),
        _ => panic!(rt; "no columns"),
    }
}

// Gives each ready job to a crew, and takes nothing in.
pub(crate) fn give_all(board: &mut Board<Op>, crew: &mut impl Crew) {
    for _ in 0..OPEN_BEHAVIOURS {
        if let Some(job) = board.take_at(0) {
            // A job that comes back is dropped.
            let _ = crew.give(job);
        }
    }
}
