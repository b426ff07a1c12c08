//! How results come back to the owner.
ghost use Rattle.std.specs.Prelude.{◌≡◌, IfErr, IfOk};
ghost use Rattle.crossbeam_channel.specs.Claims.{IsSeatAt};
ghost use Rattle.crossbeam_channel.specs.Ends.{receives_on, sends_on};

use crate::waiting::back_off::spin;
use cown_bench::BENCH_CAPACITY;
use cown_board::Done;
use crossbeam_channel::protocol::{Free, Split};
use crossbeam_channel::{Pass, RuledReceiver, RuledSender, TryRecvError, bounded_with};
use sb_calls::Op;
use std::alloc::{AllocError, Global};
use std::sync::Wait;
use std::thread;

// How often the owner looks for a result before it waits: being woken takes longer than most jobs.
// At first it spins between two looks, so that the workers get ahead, and then it yields.
const SPINS: u32 = 16;

const LOOKS: u32 = 64;

// A pass of the channel under a rule that requires and promises nothing. The channel with a rule is
// the one without a lock.
type FreePass = Pass<Done<Op>, ()>;

// How one pass becomes two. The rule keeps no state.
struct OneMore;

impl Split<()> for OneMore {
    ghost left = { λ _. tt };

    ghost right = { λ _. tt };
}

// A worker's end.
#[derive(Drop)]
pub(crate) struct Outbox {
    sender: RuledSender<Done<Op>, (), Free>,
    pass: FreePass,
    ghost tied: { IsSeatAt (sends_on sender) pass },
}

// Evidence that the result of the job with this number is on its way to the owner. Only `send_result`
// makes one.
#[derive(Drop)]
pub(crate) struct Receipt {
    number: u64,
}

// The owner's end.
#[derive(Drop)]
pub(crate) struct Inbox {
    receiver: RuledReceiver<Done<Op>, (), Free>,
    pass: FreePass,
    ghost tied: { IsSeatAt (receives_on receiver) pass },
}

// Both ends of a channel that holds as much as a bench does.
pub(crate) fn open_inbox(alloc: Global) -> Result<(Outbox, Inbox), AllocError> {
    let (sender, receiver, mut pass) = bounded_with::<Done<Op>, (), Free, Global>(
        alloc,
        BENCH_CAPACITY,
    )?;
    let other = sender.another::<OneMore>(&mut pass);
    let outbox = Outbox {
        sender,
        pass: other,
    };
    Ok((outbox, Inbox { receiver, pass }))
}

impl Outbox {
    // One more end for a worker.
    pub(crate) fn another(&mut self) -> Result<Outbox, AllocError> {
        let sender = self.sender.try_clone()?;
        let pass = self.sender.another::<OneMore>(&mut self.pass);
        Ok(Outbox { sender, pass })
    }

    // Hands over a result, and waits while the inbox is full. The result comes back if the owner is
    // gone.
    pub(crate) fn send_result<R: Wait>(
        &mut self,
        rt: &R,
        done: Done<Op>,
    ) -> Result<Receipt, Done<Op>>
        ensures sent { IfOk result (λ sent. sent.number ≡ done.number) }
        ensures back { IfErr result (λ back. back ≡ done) }
    {
        let number = done.number();
        match self.sender.send_as::<Free, R>(rt, &mut self.pass, done) {
            Ok(()) => Ok(Receipt { number }),
            Err(refused) => Err(refused.into_inner()),
        }
    }
}

impl Inbox {
    // The next result, if there is one already.
    pub(crate) fn try_recv<R: Wait>(&mut self, rt: &R) -> Result<Done<Op>, TryRecvError> {
        self.receiver.try_recv_as::<Free, R>(rt, &mut self.pass)
    }

    // The next result, if one comes within some fifty microseconds.
    pub(crate) fn look_out<R: Wait>(&mut self, rt: &R) -> Result<Done<Op>, TryRecvError> {
        for look in 0..LOOKS {
            match self.try_recv(rt) {
                Err(TryRecvError::Empty) if look < SPINS => spin(),
                Err(TryRecvError::Empty) => thread::yield_now(),
                looked => return looked,
            }
        }
        Err(TryRecvError::Empty)
    }

    // The next result of a worker, or `None` if all are gone. It sleeps until there is one.
    pub(crate) fn next<R: Wait>(&mut self, rt: &R) -> Option<Done<Op>> {
        self.receiver.recv_as::<Free, R>(rt, &mut self.pass).ok()
    }
}

// From outside nothing is sent once the owner is gone, so that case is tested here.
#[cfg(test)]
pub(crate) mod tests {
    use super::*;
    use cown_board::{Board, Job};
    use sb_rows::read_opening;
    use std::process::Abort;

    // A job with the number 1, which needs no cown.
    pub(crate) fn job(rt: &impl Abort, alloc: Global) -> Job<Op> {
        let opening = read_opening(alloc, b"begin").expect(rt, "an opening");
        let board = Board::open(alloc, opening.columns, 0, Vec::new(alloc));
        let mut board = Box::new(alloc, board.expect(rt, "memory")).expect(rt, "memory");
        assert!(rt; board.submit(Op::NoCustomer).is_ok());
        board.take_at(0).expect(rt, "a ready one")
    }

    #[test]
    fn what_is_sent_to_nobody_comes_back(rt: HostRuntime) {
        let (mut outbox, mut inbox) = open_inbox(rt.alloc()).expect(&rt, "memory");
        let sent = outbox.send_result(&rt, job(&rt, rt.alloc()).run());
        assert!(rt; sent.is_ok());
        let done = inbox.next(&rt).expect(&rt, "what is done");
        drop(inbox);
        let unsent = outbox.send_result(&rt, done);
        assert!(rt; unsent.is_err_and(|back| back.number() == 1));
    }
}
