//! Behaviours that can't be executed: the board needs only the cowns that they declare.
ghost use Rattle.std.specs.Prelude.{◌≡◌, ◌+◌, ◌<◌, length};
ghost use Rattle.sb_calls.specs.Cowns.{contents_of};

use crate::bank::{OPENING, board_of, open_board};
use arrayvec::ArrayVec;
use cown_board::{Board, Done};
use sb_calls::{Behaviour, Cown, Reply};
use std::alloc::Global;
use std::marker::Model;
use std::process::Abort;

// It reads a cown and the next one.
#[derive(Clone, Copy, Debug, PartialEq, Eq)]
struct Look {
    first: u32,
}

impl Model for Look {
    ghost use Rattle.std.specs.Prelude.{ℕ};

    ghost Value = { ℕ };

    ghost view = { λ l. l.first };

    ghost inverse = { λ v. record { first = v } };
}

impl Behaviour for Look {
    ghost use Rattle.std.specs.Prelude.{◌+◌, [], ◌∷◌};
    ghost use Rattle.sb_calls.specs.declared.reply.Reply.TheVariants.{Done};
    ghost use Rattle.sb_calls.specs.inner.Bounds.{next_above};
    ghost use Rattle.std.proofs.Math.Dec.{lit≤};
    ghost use Rattle.std.proofs.lemmas.Bool.Decides.{Decides-eqb};

    ghost touches = { λ look. look ∷ (look + 1) ∷ [] };

    ghost effect = { λ look inputs. (Done, inputs) };

    ghost rising = { λ look. (next_above look, tt) };

    ghost limit = { λ look. lit≤ tt };

    ghost valid_outputs = { λ look inputs allowed. allowed };

    ghost exact = { Decides-eqb };

    fn cowns(self) -> ArrayVec<Cown, 3> {
        let mut cowns = ArrayVec::new();
        cowns.push(Cown::new(self.first as usize));
        cowns.push(Cown::new(self.first as usize + 1));
        cowns
    }
}

// A board of looks at the six cowns of the three.
fn open(rt: &impl Abort, alloc: Global) -> Box<Board<Look>>
    ensures { length (contents_of result.value.opening) ≡ 6 }
{
    let (board, directory) = open_board(rt, alloc, OPENING, Vec::new(alloc));
    assert!(rt; directory.len() == 3);
    board
}

// Submits the looks at each of these cowns and the next one, numbered from 1.
fn submit_looks(rt: &impl Abort, board: &mut Board<Look>, firsts: &[u32])
    requires { length (contents_of board.old.opening) ≡ 6 }
{
    for (first, number) in firsts.iter().zip(1..) {
        assert!(rt; *first < 5);
        assert!(rt; board.submit(Look { first: *first }) == Ok(number));
    }
}

// Takes the look that has this many ready ones before it; it has this number. It never comes back.
fn takes(rt: &impl Abort, board: &mut Board<Look>, index: usize, number: u64) {
    let job = board.take_at(index).expect(rt, "a ready one");
    assert!(rt; job.number() == number, "{number}");
}

fn takes_none(rt: &impl Abort, board: &mut Board<Look>, index: usize) {
    assert!(rt; board.take_at(index).is_none(), "{index}");
}

#[test]
fn what_a_board_cannot_run_it_hands_out_in_order(rt: HostRuntime) {
    let mut board = open(&rt, rt.alloc());
    submit_looks(&rt, &mut board, &[0, 1, 2, 4]);
    // The second waits for the first at one cown, and the third for the second at the other.
    takes(&rt, &mut board, 1, 4);
    takes_none(&rt, &mut board, 1);
    takes(&rt, &mut board, 0, 1);
    takes_none(&rt, &mut board, 0);
    assert!(rt; board.length() == 4);
    assert!(rt; board.reply(1).is_none());
    assert!(rt; !board.idle());
    assert!(rt; board.columns().expect(&rt, "memory").is_none());
}

// Compiles only while a board needn't be able to run what it hands out.
fn gives_back<B: Behaviour>(board: &mut Board<B>, done: Done<B>) -> Result<Reply, Done<B>> {
    board.finish(done)
}

// Only what can be executed comes back, so this is an op.
#[test]
fn a_board_takes_back_what_it_need_not_run(rt: HostRuntime) {
    let mut board = board_of(&rt, rt.alloc(), &["deposit bob 1.00"]);
    let job = board.take_at(0).expect(&rt, "a ready one");
    assert!(rt; gives_back(&mut board, job.run()).ok() == Some(Reply::Done));
    assert!(rt; board.idle());
}
