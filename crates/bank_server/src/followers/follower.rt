//! A replica in a thread of its own, fed with the frames of the log.
ghost use Rattle.std.specs.Prelude.{OnOk};
ghost use Rattle.bank_server.specs.FollowerTurns.{HandlesMessage, HandlesRest, RunsAll};

use super::lent_replica::LentReplica;
use super::message::Message;
use super::stray_reason::StrayReason;
use cown_workers::{CrewGone, InlineCrew, drain};
use crossbeam_channel::{Receiver, Sender};
use sb_checkpoint::MemoryStore;
use sb_frames::{Frame, Stream};
use sb_replica::{ReceiveFault, Received, Replica};
use std::sync::Wait;

/// What a follower's thread owns.
#[derive(Drop)]
pub(crate) struct Follower {
    pub(crate) replica: Box<Replica<MemoryStore>>,
    pub(crate) stream: Stream,
    pub(crate) inbox: Receiver<Message>,
    pub(crate) outbox: Sender<LentReplica>,
}

impl Follower {
    /// Handles the frames that come, and lends its replica whenever node 0 wants it, until no more
    /// comes. It stops early, and lends what it has by then, if memory is refused or bytes aren't a
    /// frame: it handles no frame after that.
    pub(crate) fn follow<R: Wait>(self, rt: &R) {
        let Follower {
            replica,
            stream,
            inbox,
            outbox,
        } = self;
        let mut stream = stream;
        let mut own = LentReplica {
            replica,
            stop: None,
        };
        for _ in rt.forever() {
            let Ok(message) = inbox.recv(rt) else {
                return;
            };
            match message {
                Message::Frames(bytes) => handle(rt, &mut own, &mut stream, &bytes),
                Message::Lend => {
                    let Some(back) = lend(rt, own, &inbox, &outbox) else {
                        return;
                    };
                    own = back;
                }
                // Nothing is lent.
                Message::Back(_) => return,
            }
        }
    }
}

// Lends what a follower has, and answers it once it is back. `None` if node 0 sends nothing more.
fn lend<R: Wait>(
    rt: &R,
    own: LentReplica,
    inbox: &Receiver<Message>,
    outbox: &Sender<LentReplica>,
) -> Option<LentReplica> {
    if outbox.send(rt, own).is_err() {
        return None;
    }
    match inbox.recv(rt) {
        Ok(Message::Back(own)) => Some(own),
        // Nothing else is sent before.
        _ => None,
    }
}

// Handles the frames of a message, unless the follower stopped before.
fn handle<R: Wait>(rt: &R, own: &mut LentReplica, stream: &mut Stream, bytes: &[u8]) {
    if own.stop.is_none() {
        own.stop = handle_message(rt, &mut own.replica, stream, bytes).err();
    }
}

// Handles the frames of a message, each as the bytes that spell it.
fn handle_message<R: Wait>(
    rt: &R,
    replica: &mut Replica<MemoryStore>,
    stream: &mut Stream,
    bytes: &[u8],
) -> Result<(), StrayReason>
    ensures { OnOk result (HandlesMessage (record { replica = replica.old; stream = stream.old }) bytes.now
        (record { replica = replica.new; stream = stream.new })) }
{
    // The stream hadn't failed: the thread stops where it does.
    if stream.feed(bytes).is_err() {
        return Err(StrayReason::OutOfMemory);
    }
    handle_rest(rt, replica, stream)
}

// Handles all whole frames of a stream. When the board is full, and at the log's end, everything
// unfinished is executed.
fn handle_rest<R: Wait>(
    rt: &R,
    replica: &mut Replica<MemoryStore>,
    stream: &mut Stream,
) -> Result<(), StrayReason>
    ensures { OnOk result (HandlesRest (record { replica = replica.old; stream = stream.old })
        (record { replica = replica.new; stream = stream.new })) }
{
    for _ in rt.forever() {
        let received = match replica.receive(stream) {
            Ok(received) => received,
            Err(fault) => return Err(reason_of(fault)),
        };
        match received {
            Received::Short => return Ok(()),
            Received::Busy | Received::Other(Frame::Flush) => execute_in_place(replica)?,
            // Nothing else is sent to a follower but entries.
            Received::Entry(_) | Received::Other(_) => {}
        }
    }
    unreachable!()
}

// Why a follower stops that can't receive.
fn reason_of(fault: ReceiveFault) -> StrayReason {
    match fault {
        ReceiveFault::OutOfMemory => StrayReason::OutOfMemory,
        ReceiveFault::Stream(_) => StrayReason::Frame,
    }
}

// Executes everything that is unfinished, in place.
fn execute_in_place(replica: &mut Replica<MemoryStore>) -> Result<(), StrayReason>
    ensures { OnOk result (RunsAll replica.old replica.new) }
{
    match drain(replica, &mut InlineCrew) {
        Ok(()) => Ok(()),
        Err(CrewGone) => Err(StrayReason::Unfinished),
    }
}
