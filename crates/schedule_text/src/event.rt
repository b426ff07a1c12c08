//! What happens in a schedule.

use sb_calls::Call;
use sb_checkpoint::How;

/// One event of a schedule. Replicas are counted from 0; workers, entry numbers, and positions in
/// a list of frames or of states from 1. An event that names something that doesn't exist changes
/// nothing.
#[derive(Clone, Copy, PartialEq, Eq)]
pub enum Event {
    /// A client asks the sequencer for a call, and the log is synced.
    Ask {
        /// The client's number.
        client: u32,
        /// The client's number for the request.
        request: u32,
        /// What is asked.
        call: Call,
    },
    /// A client asks the sequencer for a call, and nothing is synced.
    Append {
        /// The client's number.
        client: u32,
        /// The client's number for the request.
        request: u32,
        /// What is asked.
        call: Call,
    },
    /// Something happens at a replica.
    At {
        /// The replica.
        replica: u32,
        /// What happens there.
        event: NodeEvent,
    },
    /// Something happens at the sequencer, or to two replicas.
    System(SystemEvent),
}

/// What happens at one replica.
#[derive(Clone, Copy, PartialEq, Eq)]
pub enum NodeEvent {
    /// The entry with a number is sent to the replica.
    Send {
        /// The number of the entry.
        number: u32,
    },
    /// The entries after the last length received of the replica are sent to it, at most 16.
    Resend,
    /// A frame that was sent to the replica is delivered there. It may be delivered again.
    To {
        /// The frame's position among those ever sent to it.
        position: u32,
    },
    /// The replica sends how long its log is.
    Ack,
    /// The replica sends its reply to a number, if it holds one.
    Answer {
        /// The number of the entry.
        number: u32,
    },
    /// A worker takes a behaviour that is ready.
    Take {
        /// The worker.
        worker: u32,
        /// How many ready behaviours before it are passed over.
        index: u32,
    },
    /// A worker executes its job and gives it back.
    Finish {
        /// The worker.
        worker: u32,
    },
    /// The replica puts a checkpoint.
    Mark {
        /// How the put ends.
        how: How,
    },
    /// The replica goes back to its checkpoint.
    Restart,
    /// The replica begins a cut: a copy of its rows that settles while later numbers run.
    Cut,
    /// The replica takes the entry that it holds for its next number.
    Next,
    /// The replica sends the length of the checkpoint that it keeps.
    Have,
    /// A state that was sent to the replica is adopted there. It may be adopted again.
    Adopt {
        /// The state's position among those ever sent to it.
        position: u32,
    },
}

/// What happens at the sequencer without a client, or to two replicas.
#[derive(Clone, Copy, PartialEq, Eq)]
pub enum SystemEvent {
    /// The sequencer syncs its log.
    Sync,
    /// The sequencer's machine stops and starts again: of the log the synced calls stay, and of
    /// the others those up to this number.
    Crash {
        /// The greatest number of an unsynced call that stays.
        kept: u32,
    },
    /// A frame that a replica sent is delivered to the sequencer. It may be delivered again.
    From {
        /// The replica that sent it.
        replica: u32,
        /// The frame's position among those that it ever sent.
        position: u32,
    },
    /// The sequencer says which replica another one gets a state from.
    Donor {
        /// The replica that gets one.
        replica: u32,
    },
    /// The state that a replica keeps is sent to another.
    Give {
        /// The replica whose state it is.
        donor: u32,
        /// The replica that gets it.
        replica: u32,
    },
    /// Two replicas are compared.
    Audit {
        /// One of them.
        first: u32,
        /// The other.
        second: u32,
    },
}
