//! The log, node 0, which executes it, and who keeps it.
ghost use Rattle.std.specs.Prelude.{◌≡◌, ◌≢◌, ◌≤◌, ◌↔◌, [], List, length, IfOk, IfErr, IsErrOf, MatchResult, OnOk, OnErr};
ghost use Rattle.sb_calls.specs.declared.ask.Key.{Key as AnyKey};
ghost use Rattle.sb_calls.specs.declared.call.Call.{Call as AnyCall};
ghost use Rattle.sb_rows.specs.Rows.{SameCustomers};
ghost use Rattle.cown_board.specs.Board.{length_of, unfinished_of};
ghost use Rattle.sb_checkpoint.specs.Stores.{StoreDoes};
ghost use Rattle.sb_replica.specs.Replica.{replica_at_opening};
ghost use Rattle.sb_sequencer.specs.Numbering.{IsLog, calls_of, first_asks};
ghost use Rattle.sb_sequencer.specs.Sequencer.{empty_sequencer};
ghost use Rattle.sb_ask_log.specs.Keeping.{IsKeepFault, KeepsBeginning};
ghost use Rattle.bank_server.specs.AskCounts.{no_asks};
ghost use Rattle.bank_server.specs.inner.AskSteps.{AddsAsk};
ghost use Rattle.bank_server.specs.inner.CountedAsks.{counts_by};
ghost use Rattle.bank_server.specs.Execution.{HasNoEntries};
ghost use Rattle.bank_server.specs.Faults.{IsExecutionFault};
ghost use Rattle.bank_server.specs.NodeTurns.{TurnsLead};
ghost use Rattle.bank_server.specs.Primary.{HasWholeLog, IsPrimary, PreservesBank, RunsLog, log_ops, node_at_opening};
ghost use Rattle.bank_server.specs.inner.NumberedAsks.{NumbersAsks};
ghost use Rattle.bank_server.specs.Saving.{StoresCheckpoint, IsSaveFaultOf, Saves};
ghost use Rattle.bank_server.specs.ServesOn.{ServesOn};
ghost use Rattle.bank_server.specs.SessionFaults.{as_session, session_of_crew_fault};
ghost use Rattle.bank_server.specs.Standing.{IsStandingWithin};

use super::ask_counts::AskCounts;
use super::execution::{execute_calls, execute_unfinished, submit_op};
use super::save_fault::SaveFault;
use crate::followers::Followers;
use crate::input::{Standing, standing_of};
use cown_board::Runs;
use cown_workers::{Crew, CrewFault};
use sb_ask_log::{Keeper, NoKeeper};
use sb_calls::{Call, Key, LOG_CALLS, resolve};
use sb_checkpoint::CheckpointStore;
use sb_log::LogFault;
use sb_replica::Replica;
use sb_rows::{Columns, Directory, Opening};
use sb_sequencer::Sequencer;
use std::alloc::{AllocError, Global};
use std::marker::Model;
use std::sync::Wait;

/// The log, how many asks it answered, node 0, whose own log is a beginning of it, and the log's
/// keeper, which keeps a beginning of it too.
#[derive(Drop)]
pub struct Primary<S: CheckpointStore, K: Keeper = NoKeeper> {
    alloc: Global,
    log: Box<Sequencer>,
    counts: AskCounts,
    node: Box<Replica<S>>,
    keeper: K,
}

impl<S: CheckpointStore, K: Keeper> Model for Primary<S, K> {
    ghost use Rattle.bank_server.specs.Primary.{PrimaryOf};
    ghost use Rattle.bank_server.specs.inner.KeptPrimary.{IsKeptPrimary};

    ghost Value = { PrimaryOf S K };

    ghost view = { λ p. record {
      log = p.log.value.log;
      counts = p.counts;
      node = p.node.value;
      keeper = p.keeper;
    } };

    ghost invariant = { λ p. IsKeptPrimary K.model (record {
      log = p.log.value.log;
      counts = p.counts;
      node = p.node.value;
      keeper = p.keeper;
    }) };
}

impl<S: CheckpointStore> Primary<S> {
    /// An empty log, and node 0 at this opening. The store isn't touched.
    pub fn open(alloc: Global, opening: Opening, store: S) -> Result<Primary<S>, AllocError>
        ensures log { IfOk result (λ primary. primary.log ≡ []) }
        ensures counts { IfOk result (λ primary. primary.counts ≡ no_asks) }
        ensures node { IfOk result (λ primary. primary.node ≡ node_at_opening opening store) }
    {
        Primary::with_capacity(alloc, opening, store, 0)
    }

    /// The same, with room in the log for this many entries.
    pub fn with_capacity(
        alloc: Global,
        opening: Opening,
        store: S,
        entries: usize,
    ) -> Result<Primary<S>, AllocError>
        ensures log { IfOk result (λ primary. primary.log ≡ []) }
        ensures counts { IfOk result (λ primary. primary.counts ≡ no_asks) }
        ensures node { IfOk result (λ primary. primary.node ≡ node_at_opening opening store) }
    {
        let node = open_boxed(alloc, 0, opening.directory, opening.columns, store)?;
        let log = boxed_log(alloc, entries.min(LOG_CALLS))?;
        Ok(Primary {
            alloc,
            log,
            counts: AskCounts::new(),
            node,
            keeper: NoKeeper,
        })
    }
}

impl<S: CheckpointStore, K: Keeper> Primary<S, K> {
    /// This log, of which the keeper keeps a beginning, and node 0 at this opening, with nothing of
    /// the log. The store and the keeper aren't touched.
    pub fn on_log(
        alloc: Global,
        opening: Opening,
        store: S,
        log: Box<Sequencer>,
        keeper: K,
    ) -> Result<Primary<S, K>, AllocError>
        requires { KeepsBeginning K.model keeper log.value.log }
        ensures log { IfOk result (λ primary. primary.log ≡ log.value.log) }
        ensures counts { IfOk result (λ primary. primary.counts ≡ no_asks) }
        ensures node { IfOk result (λ primary. primary.node ≡ node_at_opening opening store) }
        ensures keeper { IfOk result (λ primary. primary.keeper ≡ keeper) }
    {
        // It has one number for each key.
        let _length = log.length();
        let node = open_boxed(alloc, 0, opening.directory, opening.columns, store)?;
        Ok(Primary {
            alloc,
            log,
            counts: AskCounts::new(),
            node,
            keeper,
        })
    }

    /// The log.
    pub fn log(&self) -> &Sequencer
        ensures { result.now.log ≡ self.now.log }
    {
        &self.log
    }

    /// How many asks it answered since it was opened.
    pub fn counts(&self) -> AskCounts
        ensures { result ≡ self.now.counts }
    {
        self.counts
    }

    /// The log's keeper.
    pub fn keeper(&self) -> &K
        ensures { result.now ≡ self.now.keeper }
    {
        &self.keeper
    }

    /// Node 0.
    pub fn node(&self) -> &Replica<S>
        ensures value { result.now ≡ self.now.node }
        // It has a beginning of the log.
        ensures valid { IsPrimary self.now }
    {
        &self.node
    }

    /// Makes room in the log for this many more calls, or for as many as it takes. If memory is
    /// refused, nothing is lost.
    pub(crate) fn reserve(&mut self, additional: usize) -> Result<(), AllocError>
        ensures { self.new ≡ self.old }
    {
        let room = LOG_CALLS - self.log.length() as usize;
        self.log.reserve(additional.min(room))
    }

    /// Asks for a call under a key, and answers the standing of the ask in the log.
    ///
    /// Fails if memory is refused; nothing changes then.
    pub(crate) fn ask(&mut self, key: Key, call: &Call) -> Result<Standing, AllocError>
        ensures asked { IfOk result (λ standing. (asks : List (AnyKey × AnyCall)) → self.old.log ≡ first_asks asks
            → AddsAsk asks (key, call.now) self.new.log standing) }
        ensures among { IfOk result (IsStandingWithin (length self.new.log)) }
        // It is counted once.
        ensures counted { IfOk result (λ standing.
            self.new.counts ≡ counts_by (length self.old.log) standing self.old.counts) }
        ensures numbered { NumbersAsks K.model self.old self.new }
        ensures err { OnErr result (self.new ≡ self.old) }
    {
        let answer = self.log.ask(key.client, key.request, call);
        // The log has no more numbers than it takes.
        prove!(self.log.length() <= LOG_CALLS as u64);
        self.counts.count_answer(answer);
        match standing_of(answer) {
            Some(standing) => Ok(standing),
            None => Err(AllocError),
        }
    }

    /// Offers node 0 the entries of the log that it lacks.
    ///
    /// Fails as [`Primary::settle`] does.
    pub(crate) fn offer_rest<C: Crew>(&mut self, crew: &mut C) -> Result<(), CrewFault>
        ensures offered { OnOk result (self.new.node.board.log ≡ log_ops self.new.node.names self.new.log) }
        ensures unchanged { self.new ≡ record self.old { node = self.new.node } }
        ensures one_each { IsLog self.new.log }
        // The bank goes on, after a fault too.
        ensures serves { ServesOn K.model C.keeps (as_session session_of_crew_fault result) self.old self.new }
    {
        for number in self.node.length() + 1..self.log.length() + 1 {
            let call = self.log.call(number).unwrap();
            let op = resolve(self.node.directory(), call);
            submit_op(&op, &mut self.node, crew)?;
        }
        Ok(())
    }

    /// Has node 0 execute the whole log.
    ///
    /// Fails with
    /// - [`CrewFault::CrewGone`] if the crew leaves something unfinished, which one that keeps no job
    ///   never does if none was out,
    /// - [`CrewFault::OutOfMemory`] if memory is refused.
    ///
    /// The log stays, and node 0 may have executed more of it then.
    pub fn settle<C: Crew>(&mut self, crew: &mut C) -> Result<(), CrewFault>
        ensures whole_log { OnOk result (HasWholeLog self.new) }
        ensures unchanged { self.new ≡ record self.old { node = self.new.node } }
        // It has one number for each key.
        ensures one_each { IsLog self.new.log }
        // What was kept stays kept, node 0 was touched by its turns alone, and a crew that keeps no job
        // leaves none out, after a fault too.
        ensures serves { ServesOn K.model C.keeps (as_session session_of_crew_fault result) self.old self.new }
    {
        self.offer_rest(crew)?;
        execute_unfinished(&mut self.node, crew)
    }

    /// Has the whole log kept.
    ///
    /// Fails as the keeper does ([`Keeper::keep`]).
    pub fn keep(&mut self) -> Result<(), LogFault>
        ensures kept { OnOk result (K.model.Keeps self.new.keeper self.new.log) }
        ensures unchanged { self.new ≡ record self.old { keeper = self.new.keeper } }
        // What was kept stays kept, after a fault too.
        ensures bank { PreservesBank K.model self.old self.new }
        ensures fault { IfErr result (IsKeepFault K.model.fails (K.model.has_failed self.new.keeper)) }
    {
        self.keeper.keep(&self.log)
    }

    /// Has node 0 execute the whole log, of which it has nothing yet, together with its followers,
    /// and gives it back.
    ///
    /// Unless followers listen, the log's keys are dropped before the first entry is submitted.
    ///
    /// Fails with
    /// - [`CrewFault::CrewGone`] if the crew leaves something unfinished, which one that keeps no
    ///   job never does,
    /// - [`CrewFault::OutOfMemory`] if memory is refused.
    pub fn execute_with_followers<R: Wait, C: Crew>(
        self,
        crew: &mut C,
        followers: &mut Followers<'_, R>,
    ) -> Result<Box<Replica<S>>, CrewFault>
        requires no_entries { HasNoEntries self.node.board }
        ensures run { IfOk result (λ node. RunsLog self.log self.node node.value) }
        // It was offered the log's entries and exchanged jobs with the crew.
        ensures turns { IfOk result (λ node. TurnsLead (log_ops self.node.names self.log) self.node node.value) }
        // The whole log was sent to the followers.
        ensures sent { OnOk result (length self.log ≤ followers.new.sent) }
        ensures unchanged { followers.new ≡ record followers.old { sent = followers.new.sent } }
        ensures fault { IfErr result (IsExecutionFault C.keeps self.node.board) }
    {
        let Primary {
            alloc,
            log,
            node,
            ..
        } = self;
        let mut node = node;
        execute_log(alloc, log, &mut node, crew, followers)?;
        Ok(node)
    }

    /// Puts a checkpoint of everything that node 0 executed into its store, reads it back, and
    /// answers the checkpoint's length. After [`Primary::settle`] that is the whole log.
    ///
    /// Fails with
    /// - [`SaveFault::Device`] if a put or a get fails,
    /// - [`SaveFault::ReadBack`] if what is read back isn't what was put, which never happens with
    ///   an honest store,
    /// - [`SaveFault::OutOfMemory`] if memory is refused,
    /// - [`SaveFault::Busy`] exactly if node 0 has something unfinished.
    ///
    /// The log and the rows stay.
    pub fn save(&mut self) -> Result<u64, SaveFault>
        ensures saved { OnOk result (Saves (StoreDoes S.model) self.old.node self.new.node) }
        ensures size { IfOk result (λ size. size ≡ length_of self.old.node.board) }
        // An honest store holds the checkpoint then, or fails otherwise than by other bytes.
        ensures honest { S.model.IsHonest self.old.node.store → MatchResult result
            (λ size. StoresCheckpoint S.model.slot self.old.node self.new.node)
            (λ fault. fault ≢ SaveFault.ReadBack) }
        ensures fault { IfErr result (λ fault. IsSaveFaultOf (StoreDoes S.model)
            self.old.node fault self.new.node) }
        ensures busy { IsErrOf result SaveFault.Busy ↔ (unfinished_of self.old.node.board ≢ 0) }
        ensures unchanged { self.new ≡ record self.old { node = record self.old.node { store = self.new.node.store } } }
    {
        let put = self.node.put_checkpoint()?;
        let same = self.node.store_has_content(&put)?;
        if !same {
            return Err(SaveFault::ReadBack);
        }
        Ok(self.node.length())
    }
}

// An empty log with room for this many entries. The function owns nothing else, so that a `?` has
// little to drop.
fn boxed_log(alloc: Global, entries: usize) -> Result<Box<Sequencer>, AllocError>
    ensures { IfOk result (λ log. log.value ≡ empty_sequencer 1) }
{
    let log = Sequencer::with_capacity(alloc, 1, entries)?;
    Ok(Box::new(alloc, log)?)
}

// Executes a log on a node that has nothing of it yet. Unless followers listen, all but its calls is
// dropped before.
fn execute_log<S: CheckpointStore, R: Wait, C: Crew>(
    alloc: Global,
    log: Box<Sequencer>,
    node: &mut Replica<S>,
    crew: &mut C,
    followers: &mut Followers<'_, R>,
) -> Result<(), CrewFault>
    requires valid { IsLog log.value.log }
    requires opened { HasNoEntries node.old.board }
    requires customers { SameCustomers node.old.names node.old.board.opening }
    ensures run { OnOk result (RunsLog log.value.log node.old node.new) }
    ensures turns { OnOk result (TurnsLead (log_ops node.old.names log.value.log) node.old node.new) }
    ensures sent { OnOk result (length log.value.log ≤ followers.new.sent) }
    ensures unchanged { followers.new ≡ record followers.old { sent = followers.new.sent } }
    ensures fault { IfErr result (IsExecutionFault C.keeps node.old.board) }
{
    if followers.is_empty() {
        // The board can take the place of the keys in memory.
        let calls = take_calls(log);
        return execute_calls(alloc, &calls, None, node, crew, followers);
    }
    execute_calls(alloc, log.calls(), Some(&log), node, crew, followers)
}

// The calls of a log, of which nothing else is needed. The function owns nothing else.
fn take_calls(log: Box<Sequencer>) -> Vec<Call>
    ensures { result.items ≡ calls_of log.value.log }
{
    Box::into_inner(log).into_calls()
}

/// A replica as [`Replica::open`] makes it.
pub(crate) fn open_boxed<S: CheckpointStore>(
    alloc: Global,
    id: u8,
    directory: Directory,
    opening: Columns,
    store: S,
) -> Result<Box<Replica<S>>, AllocError>
    requires { length opening.savings ≡ length directory }
    ensures { IfOk result (λ replica. replica.value ≡ replica_at_opening id directory opening store) }
{
    let replica = Replica::open(alloc, id, directory, opening, store)?;
    Ok(Box::new(alloc, replica)?)
}
