//! The notes on events.

use sb_calls::Reply;

/// The result of one event.
#[derive(Clone, Copy, PartialEq, Eq)]
pub enum Note {
    /// The ask got this new number.
    New(u64),
    /// The ask, the entry or the answer with this number was there already.
    Repeat(u64),
    /// The key of the ask has this number with another call.
    Mismatch(u64),
    /// The log takes no more calls.
    LogFull,
    /// The sequencer's log is synced up to this length, its whole.
    Synced(u64),
    /// The sequencer started again with a log of this length.
    Crashed(u64),
    /// A frame was sent, at this position of its list.
    Sent(u64),
    /// This many entries were sent.
    Resent(u64),
    /// The entry with this number is now the last of the replica's log.
    Accepted(u64),
    /// The entry with this number came too early, and the replica holds it.
    Held(u64),
    /// The replica's log, of this length, lacks too many entries before it.
    Gap(u64),
    /// It is the next entry for the log, of this length, but the limit of unfinished entries is
    /// reached.
    Busy(u64),
    /// The sequencer recorded that a replica has the log up to this length.
    Recorded(u64),
    /// The sequencer refused a length. It never comes.
    Odd,
    /// The sequencer keeps the answer to this number.
    Kept(u64),
    /// The sequencer keeps another answer to this number. It never comes.
    OddAnswer(u64),
    /// The log has no such number. It never comes.
    Unknown(u64),
    /// The behaviour with this number is in the worker's hand.
    Took(u64),
    /// The worker's hand isn't empty.
    HandFull,
    /// The behaviour with this number is finished, with this reply.
    Finished(u64, Reply),
    /// What the worker gave back, with this number, isn't out at this replica any more.
    Stranger(u64),
    /// The checkpoint of this length is kept.
    Marked(u64),
    /// An entry that the mark covers is unfinished, so no checkpoint was put.
    Unfinished,
    /// The put failed.
    StoreFault,
    /// The replica went back to this length.
    Restarted(u64),
    /// A cut of this length was made.
    Cut(u64),
    /// There is a cut already, of this length.
    Pending(u64),
    /// The sequencer recorded that a replica keeps a checkpoint of this length.
    Has(u64),
    /// This replica keeps a checkpoint of this length; another one should get its state from there.
    Donor(u32, u64),
    /// A state was sent, at this position of its list.
    Gave(u64),
    /// The replica went to this length by a state.
    Adopted(u64),
    /// The state has no more entries than the replica's log, of this length.
    Behind(u64),
    /// The result of comparing two replicas.
    Audit(AuditNote),
    /// The event names something that doesn't exist, or finds nothing to do.
    Nothing,
}

/// The result of comparing two replicas: the first that holds.
#[derive(Clone, Copy, PartialEq, Eq)]
pub enum AuditNote {
    /// Something is unfinished at this replica.
    Busy(u32),
    /// Their logs have these lengths, which differ.
    Apart(u64, u64),
    /// Their columns differ, at this place first. It never comes.
    Differ(Column, usize),
    /// The bank's total isn't what the opening and the log's net changes make it. It never comes.
    OffBooks(i64, i64),
    /// They are the same: the bank's total in cents, and how many customers have a checking balance
    /// below 0.
    Same(i64, usize),
}

/// One of a bank's two columns.
#[derive(Clone, Copy, PartialEq, Eq)]
pub enum Column {
    /// The savings.
    Savings,
    /// The checking balances.
    Checking,
}
