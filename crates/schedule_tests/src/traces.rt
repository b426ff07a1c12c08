//! A world plays again what a crew of threads did with a board.
ghost use Rattle.std.specs.Prelude.{◌≡◌, ◌*◌, length};
ghost use Rattle.sb_calls.specs.Cowns.{contents_of};

use crate::worlds::{OPENING, accepts, at, sends, stands_at, world_of};
use cown_board::Board;
use cown_workers::{Gate, Notice, Traced, drain, with_crew};
use sb_calls::{Op, read_call, resolve};
use sb_rows::{Directory, Opening, read_opening};
use schedule_player::{Event, NodeEvent, Note, World};
use std::alloc::Global;
use std::process::Abort;
use std::sync::Wait;
use std::thread::Threads;
use std::time::Clock;

const CALLS: [&str; 16] = [
    "deposit alice 1.00",
    "deposit bob 2.00",
    "balance zed",
    "deposit carol 3.00",
    "amalgamate alice bob",
    "savings carol -1.00",
    "balance bob",
    "amalgamate bob bob",
    "balance carol",
    "savings alice 7.00",
    "check carol 400.00",
    "amalgamate carol alice",
    "deposit bob -1.00",
    "balance alice",
    "check bob 20.00",
    "balance bob",
];

// How often a crew is traced. Each time its threads may take other turns.
const ROUNDS: u32 = 20;

// A gate that doesn't admit the owner, so the workers execute all.
struct WorkersAlone;

impl Gate for WorkersAlone {
    fn before(&self, _number: u64) {}

    fn after(&self, _number: u64) {}
}

// A board with these calls, none of them executed yet.
#[tactic(auto, using(sb_calls::proofs::CownColumns::two_cowns_a_customer))]
fn board_of_calls(rt: &impl Abort, alloc: Global) -> Box<Board<Op>> {
    let opening = read_opening(alloc, OPENING.as_bytes()).expect(rt, "an opening");
    let Opening {
        directory,
        columns,
        ..
    } = opening;
    let board = Board::open(alloc, columns, 0, Vec::new(alloc)).expect(rt, "memory");
    let mut board = Box::new(alloc, board).expect(rt, "memory");
    submit_calls(rt, &mut board, &directory);
    board
}

fn submit_calls(rt: &impl Abort, board: &mut Board<Op>, directory: &Directory)
    requires { length (contents_of board.old.opening) ≡ 2 * length directory.now }
{
    for line in CALLS {
        let call = read_call(line.as_bytes()).expect(rt, "a call");
        assert!(rt; board.submit(resolve(directory, &call)).is_ok());
    }
}

// The board after four workers executed the calls, with the exchanges that were noted.
fn drained<R>(rt: &R, alloc: Global) -> (Box<Board<Op>>, Vec<Notice>)
where
    R: Threads + Wait + Clock + Sync + Abort,
{
    let board = board_of_calls(rt, alloc);
    let answer = with_crew(rt, alloc, 4, &WorkersAlone, move |crew| {
        let mut board = board;
        let mut traced = Traced::new(crew);
        let ended = drain(&mut *board, &mut traced);
        let mut notices = Vec::new(alloc);
        let copied = notices.extend_from_slice(traced.notices());
        (board, notices, ended.is_ok() && copied.is_ok())
    });
    let (board, notices, well) = answer.expect(rt, "a crew");
    assert!(rt; well);
    (board, notices)
}

// Client 1 asks for the calls, and the replica accepts them; none is executed yet.
fn asked(rt: &impl Abort, alloc: Global) -> Box<World> {
    let mut world = world_of(rt, alloc, 1, 16);
    for place in 0..CALLS.len() {
        let event = Event::Ask {
            client: 1,
            request: place as u32,
            call: read_call(CALLS[place].as_bytes()).expect(rt, "a call"),
        };
        assert!(rt; world.step(event) == Ok(Note::New(place as u64 + 1)));
    }
    sends(rt, &mut world, 16);
    accepts(rt, &mut world, 16);
    world
}

// The first worker whose hand holds this number; it then holds the other one. There is no job 0.
fn hand_over(rt: &impl Abort, hands: &mut [u64; 16], before: u64, now: u64) -> u32 {
    let place = hands.iter().position(|held| *held == before);
    let place = place.expect(rt, "a hand");
    hands[place] = now;
    place as u32 + 1
}

// The first ready entry has this number. A worker whose hand is empty takes it.
fn takes(rt: &impl Abort, world: &mut World, hands: &mut [u64; 16], number: u64) {
    let take = at(
        0,
        NodeEvent::Take {
            worker: hand_over(rt, hands, 0, number),
            index: 0,
        },
    );
    assert!(rt; world.step(take) == Ok(Note::Took(number)), "{number}");
}

// The worker that has this number finishes it, with the reply that the board has.
fn finishes(
    rt: &impl Abort,
    world: &mut World,
    hands: &mut [u64; 16],
    board: &Board<Op>,
    number: u64,
) {
    let finish = at(
        0,
        NodeEvent::Finish {
            worker: hand_over(rt, hands, number, 0),
        },
    );
    let reply = board.reply(number).expect(rt, "a reply");
    assert!(rt;
        world.step(finish) == Ok(Note::Finished(number, reply)),
        "{number}"
    );
}

// Each exchange that was noted happens in the world, with the same number.
fn play(rt: &impl Abort, world: &mut World, board: &Board<Op>, notices: &[Notice]) {
    let mut hands = [0_u64; 16];
    for notice in notices {
        match *notice {
            Notice::Given(number) => takes(rt, world, &mut hands, number),
            Notice::Came(number) => finishes(rt, world, &mut hands, board, number),
            Notice::Back(number) => {
                takes(rt, world, &mut hands, number);
                finishes(rt, world, &mut hands, board, number);
            }
        }
    }
}

// The replica has the balances of the board.
fn is_alike(rt: &impl Abort, world: &World, board: &Board<Op>) {
    assert!(rt; world.replicas() > 0);
    let columns = world.columns(0).expect(rt, "columns");
    let others = board.final_columns().expect(rt, "columns");
    assert!(rt; columns.savings() == others.savings());
    assert!(rt; columns.checking() == others.checking());
}

// A trace differs from run to run, and so does the schedule that is played: each is one of many.
fn plays_a_trace<R>(rt: &R, alloc: Global)
where
    R: Threads + Wait + Clock + Sync + Abort,
{
    let (board, notices) = drained(rt, alloc);
    assert!(rt; notices.len() == 32);
    let mut world = asked(rt, alloc);
    play(rt, &mut world, &board, &notices);
    stands_at(rt, &world, 0, 16, true);
    is_alike(rt, &world, &board);
}

#[test]
fn each_trace_of_four_workers_is_a_schedule(rt: HostRuntime) {
    for _ in 0..ROUNDS {
        plays_a_trace(&rt, rt.alloc());
    }
}
