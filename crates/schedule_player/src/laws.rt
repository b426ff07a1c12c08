//! The replication theorem.
ghost use Rattle.schedule_player.specs.EventLists.{AfterPlaying};
ghost use Rattle.schedule_player.specs.Headline.{Replication};
ghost use Rattle.schedule_player.specs.LogAgreement.{RecordedLengths};
ghost use Rattle.schedule_player.specs.LogLaws.{FirstAsks, RestartsAfterCrash, SyncedLogsStay};

/// After every list of events from an opened world, the log is the one that these events make. Any
/// two replicas that hold a reply to a number hold the same one, which is that of running the log
/// one by one. A replica holds a reply to each number that is done at it, and has at most as many
/// entries as are synced.
pub fn replication()
    ensures { Replication }
{}

/// What follows from every list of events, and so from one event. If the world before is the one
/// after a schedule, the world at the end is that after the schedule and these events. No note is
/// odd, unknown, different or off the books. There are as many replicas as before.
pub fn after_playing()
    ensures { AfterPlaying }
{}

/// After every list of events from an opened world, each length of a log that the sequencer
/// recorded is 0, or was in an acknowledgement that its replica sent. Each length of a checkpoint
/// is 0, or was in a `Have` frame that its replica sent.
pub fn recorded_lengths()
    ensures { RecordedLengths }
{}

/// Of two moments, the log at the later one begins with what was synced at the earlier one, and so
/// does what is synced then.
pub fn synced_logs_stay()
    ensures { SyncedLogsStay }
{}

/// Without appends and crashes, the log that events make is the first ask of each key among them,
/// in order.
pub fn log_is_first_asks()
    ensures { FirstAsks }
{}

/// A server that stops and is opened on its file again is the machine after a crash. Given any life
/// of a log's file, and a world whose log was given to it, and whose synced log was told: whatever a
/// stop leaves of the file, what is read of it is the world's log after some crash. So it begins
/// with all that was told, and each reply before is that log's reply.
pub fn restarts_as_after_a_crash()
    ensures { RestartsAfterCrash }
{}
