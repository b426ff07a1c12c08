//! What can be seen of a world.
ghost use Rattle.std.specs.Prelude.{◌≡◌, ℕ, ◌+◌, ◌<◌, ◌≤◌, ◌↔◌, true, false, Some, None, length, slice_get, IsTrue, IfOk, IfSome, MatchOption};
ghost use Rattle.std.specs.Option.{option_copied};
ghost use Rattle.sb_sequencer.specs.Notes.{answer_of};
ghost use Rattle.sb_sequencer.specs.Numbering.{call_of_number, index_of_key};
ghost use Rattle.schedule_player.specs.Bank.{log_reply};
ghost use Rattle.schedule_player.specs.Books.{IsRowsAt, IsStateAt};
ghost use Rattle.schedule_player.specs.Observers.{idle_at, length_at, reply_at_replica, state_at};
ghost use Rattle.schedule_player.specs.EventLists.{IsWorldAfter, bank_after};
ghost use Rattle.schedule_player.specs.LogAgreement.{WorldAgreesWithLog};
ghost use Rattle.schedule_player.specs.World.{bank_of, world_log};
ghost use Rattle.schedule_text.specs.ScheduleText.{ScheduleOf};

use crate::world::World;
use cown_board::Runs;
use sb_calls::{Call, REPLICAS, Reply};
use sb_rows::{Columns, Directory};

impl World {
    /// The number of replicas, at most sixteen.
    pub fn replicas(&self) -> u32
        ensures value { result ≡ length self.now.nodes }
        ensures limit { result ≤ REPLICAS }
        // Whatever happened, no replica is ahead of what is synced, and all frames, states and
        // answers are the log's.
        ensures agrees_with_log { WorldAgreesWithLog self.now }
    {
        self.nodes.len() as u32
    }

    /// The customers' names.
    pub fn directory(&self) -> &Directory
        ensures { result.now ≡ self.now.names }
    {
        &self.directory
    }

    /// The length of a replica's log.
    pub fn length(&self, replica: u32) -> u64
        requires { replica < length self.now.nodes }
        ensures { length_at self.now replica ≡ Some result }
    {
        self.nodes[replica as usize].replica.length()
    }

    /// Whether a replica has nothing unfinished.
    pub fn idle(&self, replica: u32) -> bool
        requires { replica < length self.now.nodes }
        ensures { IsTrue result ↔ IsTrue (idle_at self.now replica) }
    {
        self.nodes[replica as usize].replica.idle()
    }

    /// The reply that a replica holds to a number.
    pub fn reply(&self, replica: u32, number: u64) -> Option<Reply>
        requires { replica < length self.now.nodes }
        // If the number is done it is the log's, and otherwise there is none.
        ensures value { result ≡ reply_at_replica self.now replica number }
        // After whatever schedule, it is the reply of the log at its end, run one by one.
        ensures by_log { (schedule : ScheduleOf) → IsWorldAfter schedule self.now
            → IfSome result (λ reply. log_reply (bank_after schedule) number ≡ Some reply) }
    {
        self.nodes[replica as usize].replica.reply(number)
    }

    /// The columns of a replica, borrowed, or `None` if it has something unfinished.
    pub fn columns(&self, replica: u32) -> Option<&Columns>
        requires { replica < length self.now.nodes }
        ensures idle { MatchOption result (idle_at self.now replica ≡ false) (λ _. idle_at self.now replica ≡ true) }
        // Read by the customers' names, they are the rows after as many calls of the log as the
        // replica has.
        ensures rows { IfSome result (λ columns. (size : ℕ) → length_at self.now replica ≡ Some size
            → IsRowsAt (bank_of self.now) size columns.now) }
        // After whatever schedule, these calls are those of the log at its end.
        ensures by_log { (schedule : ScheduleOf) → IsWorldAfter schedule self.now
            → IfSome result (λ columns. (size : ℕ) → length_at self.now replica ≡ Some size
            → IsRowsAt (bank_after schedule) size columns.now) }
    {
        self.nodes[replica as usize].replica.final_columns()
    }

    /// The bytes of the state at a position, counted from 1, among all that were ever sent to a
    /// replica.
    pub fn state(&self, replica: u32, position: u32) -> Option<&[u8]>
        requires { replica < length self.now.nodes }
        // They are the bank's checkpoint after as many calls of the log as the machine says.
        ensures value { MatchOption result (state_at self.now replica position ≡ None) (λ bytes.
            (size : ℕ) × (state_at self.now replica position ≡ Some size)
            × IsStateAt (bank_of self.now) size bytes.now) }
        // After whatever schedule, these calls are those of the log at its end.
        ensures by_log { (schedule : ScheduleOf) → IsWorldAfter schedule self.now
            → IfSome result (λ bytes. (size : ℕ) → state_at self.now replica position ≡ Some size
            → IsStateAt (bank_after schedule) size bytes.now) }
    {
        self.nodes[replica as usize].states.get(position)
    }

    /// The call with this number in the log.
    pub fn call(&self, number: u64) -> Option<&Call>
        ensures { option_copied result ≡ call_of_number (world_log self.now) number }
    {
        self.sequencer.call(number)
    }

    /// The answer that the sequencer keeps for a request.
    pub fn answer_of(&self, client: u32, request: u32) -> Option<Reply>
        ensures value { result
            ≡ answer_of self.now.sequencer.synced (record { client = client; request = request }) }
        // It is the log's reply to the number of the request.
        ensures log_reply { IfSome result (λ reply. (index : ℕ)
            → index_of_key (world_log self.now) (record { client = client; request = request }) ≡ Some index
            → log_reply (bank_of self.now) (index + 1) ≡ Some reply) }
    {
        self.sequencer.answer_of(client, request)
    }
}
