//! Clients who are served at once.
ghost use Rattle.std.specs.Prelude.{◌≡◌, ◌⊎◌, ◌≤◌, ◌<◌, ◌∷◌, ◌++◌, ◌↔◌, [], drop, length, take, IfErr, IfOk, IfSome, IsTrue, OnErr, OnOk, slice_get, slice_set};
ghost use Rattle.std.specs.List.{All};
ghost use Rattle.bank_server.specs.Clients.{AreCalmBut, AreUntold, IsReady, IsServed, IsSound, StaysReady, StaysServed, ServesTurn, StopsTurn, TurnLeaves, fresh_client, no_past, past_with, sends};
ghost use Rattle.bank_server.specs.Primary.{HasWholeLog, opening_rows_of};
ghost use Rattle.bank_server.specs.ServesOn.{ServesOn};
ghost use Rattle.bank_server.specs.SessionFaults.{IsCrewFault, IsLogFault, as_session, session_of_crew_fault, session_of_turn_fault};
ghost use Rattle.bank_server.specs.inner.ClientTurns.{IsServing};

use super::READ_BYTES;
use super::arrivals::Arrivals;
use super::client::Client;
use super::client_limits::ClientLimits;
use super::places::{add_client, take_sent, vacate_place};
use super::session_fault::SessionFault;
use super::turn_fault::TurnFault;
use super::turns::{take_arrivals, tell_all};
use crate::node0::{AskCounts, Primary};
use cown_workers::{Crew, CrewFault};
use sb_ask_log::Keeper;
use sb_checkpoint::CheckpointStore;
use std::alloc::{AllocError, Global};
use std::marker::Model;

/// Clients who are served at once, turn by turn, each at its place. Between two turns one that is
/// served to its end can leave, and another one has the place then.
#[derive(Drop)]
pub struct Clients {
    alloc: Global,
    limits: ClientLimits,
    all: Vec<Client>,
    // Those whom the last turn told something, or who ended in it.
    stirred: Vec<usize>,
    // The bytes of one read.
    chunk: Vec<u8>,
}

impl Model for Clients {
    ghost use Rattle.bank_server.specs.Clients.{ClientsOf};

    ghost Value = { ClientsOf };

    ghost view = { λ c. record { limits = c.limits; all = c.all.items; stirred = c.stirred.items } };
}

impl Clients {
    /// No clients, each of which will have these limits.
    ///
    /// Fails if memory is refused.
    pub fn new(alloc: Global, limits: ClientLimits) -> Result<Clients, AllocError>
        ensures limits { IfOk result (λ clients. clients.limits ≡ limits) }
        ensures all { IfOk result (λ clients. clients.all ≡ []) }
        ensures stirred { IfOk result (λ clients. clients.stirred ≡ []) }
    {
        let mut chunk = Vec::new(alloc);
        chunk.resize(READ_BYTES, 0)?;
        Ok(Clients {
            alloc,
            limits,
            all: Vec::new(alloc),
            stirred: Vec::new(alloc),
            chunk,
        })
    }

    /// How many places there are.
    pub fn len(&self) -> usize
        ensures { result ≡ length self.now.all }
    {
        self.all.len()
    }

    /// Whether there is no place.
    pub fn is_empty(&self) -> bool
        ensures { IsTrue result ↔ (self.now.all ≡ []) }
    {
        self.all.is_empty()
    }

    /// A new place for clients, behind the others.
    ///
    /// Fails if memory is refused; nothing changes then.
    pub fn join(&mut self) -> Result<usize, AllocError>
        ensures place { IfOk result (λ place. place ≡ length self.old.all) }
        ensures joined { OnOk result (self.new
            ≡ record self.old { all = self.old.all ++ fresh_client self.old.limits ∷ [] }) }
        ensures ready { OnOk result (StaysReady self.old.all self.new.all) }
        // It has no past.
        ensures served { OnOk result (StaysServed (past_with (length self.old.all) no_past) self.old.all self.new.all) }
        ensures err { OnErr result (self.new ≡ self.old) }
    {
        add_client(self.alloc, self.limits, &mut self.all)
    }

    /// The client at a place has left, and the place is as one that nothing came from.
    pub fn vacate(&mut self, place: usize)
        requires { place < length self.old.all }
        ensures vacated { self.new
            ≡ record self.old { all = slice_set self.old.all place (fresh_client self.old.limits) } }
        ensures ready { StaysReady self.old.all self.new.all }
        // It has no past.
        ensures served { StaysServed (past_with place no_past) self.old.all self.new.all }
    {
        vacate_place(self.alloc, self.limits, &mut self.all, place);
    }

    /// The places of those whom the last turn told something, or who ended in it.
    pub fn stirred(&self) -> &[usize]
        ensures { result.now ≡ self.now.stirred }
    {
        &self.stirred
    }

    /// The outcomes that a client's connection hasn't taken.
    pub fn outcomes(&self, place: usize) -> &[u8]
        requires { place < length self.now.all }
        ensures { IfSome (slice_get self.now.all place) (λ client. result.now ≡ client.outcomes) }
    {
        self.all[place].outcomes()
    }

    /// How a client ended, once it has.
    pub fn ending(&self, place: usize) -> Option<Result<(), SessionFault>>
        requires { place < length self.now.all }
        ensures { IfSome (slice_get self.now.all place) (λ client. result ≡ client.ending) }
    {
        self.all[place].ending()
    }

    /// Whether the connection of a client failed, be it after its end.
    pub fn is_broken(&self, place: usize) -> bool
        requires { place < length self.now.all }
        ensures { IfSome (slice_get self.now.all place) (λ client. result ≡ client.broken) }
    {
        self.all[place].is_broken()
    }

    /// How many asks a client had.
    pub fn ask_counts(&self, place: usize) -> AskCounts
        requires { place < length self.now.all }
        ensures { IfSome (slice_get self.now.all place) (λ client. result ≡ client.counts) }
    {
        self.all[place].ask_counts()
    }

    /// A client's connection took this many bytes of its outcomes.
    pub fn sent(&mut self, place: usize, count: usize)
        requires count { IfSome (slice_get self.old.all place) (λ client. count ≤ length client.outcomes) }
        requires place { place < length self.old.all }
        ensures taken { IfSome (slice_get self.old.all place) (λ client. self.new ≡ record self.old {
          all = slice_set
              self.old.all place (record client { outcomes = drop count client.outcomes });
        }) }
        ensures ready { StaysReady self.old.all self.new.all }
        // They are in its past now.
        ensures served { IfSome (slice_get self.old.all place) (λ client. StaysServed
            (sends place (take count client.outcomes)) self.old.all self.new.all) }
    {
        take_sent(&mut self.all, place, count);
    }

    /// A turn: takes what has come, in the order of arrival, of each client at most as many
    /// pieces as there are clients. If a flush came or a client ended, the whole log is executed once and
    /// kept once, and then each client is given the outcomes of its own asks that a flush of its own
    /// follows. A client at fault ends; nobody else notices.
    ///
    /// Fails with
    /// - [`TurnFault::Crew`] if the crew leaves something unfinished, or memory is refused,
    /// - [`TurnFault::Log`] if the log can't be kept, in place of any other fault. Nobody was given
    ///   anything then.
    pub fn turn<A: Arrivals, S: CheckpointStore, K: Keeper, C: Crew>(
        &mut self,
        arrivals: &mut A,
        primary: &mut Primary<S, K>,
        crew: &mut C,
    ) -> Result<(), TurnFault>
        requires ready { All (λ client. IsReady (length primary.old.log) client) self.old.all }
        ensures ready { OnOk result (All (λ client. IsReady (length primary.new.log) client) self.new.all) }
        // What has come is taken, at most a piece for each place. The log is that of all asks taken, and
        // each client was given exactly the outcomes of its own.
        ensures served { OnOk result (ServesTurn (IsServed (opening_rows_of primary.old)) (A.coming arrivals.old)
            (A.coming arrivals.new) (A.here arrivals.old) primary.old.log self.old.all primary.new.log self.new.all) }
        // The whole log is kept, unless nobody was told anything and nobody ended. If it can't be kept
        // nobody was told anything.
        ensures leaves { TurnLeaves result (A.outgoing arrivals.old) (A.outgoing arrivals.new)
            (K.model.Keeps primary.new.keeper primary.new.log) self.old.all self.new }
        // What was kept stays kept, and a crew that keeps no job leaves none out, after a fault too.
        ensures serves { ServesOn K.model C.keeps (as_session session_of_turn_fault result) primary.old primary.new }
        // After a fault the log is that of asks that came.
        ensures stopped { OnErr result (StopsTurn (opening_rows_of primary.old) (A.coming arrivals.old)
            (A.coming arrivals.new) primary.old.log self.old.all primary.new.log) }
        // After a fault that isn't the log's the whole log is kept.
        ensures kept_after_fault { IfErr result (λ fault. IsCrewFault fault
            → K.model.Keeps primary.new.keeper primary.new.log) }
    {
        self.stirred.clear();
        serve_turn(
            arrivals,
            &mut self.chunk,
            &mut self.all,
            &mut self.stirred,
            primary,
            crew,
        )
    }
}

// Takes what has come, has the log kept, and only then tells the clients what is due.
fn serve_turn<A: Arrivals, S: CheckpointStore, K: Keeper, C: Crew>(
    arrivals: &mut A,
    chunk: &mut [u8],
    clients: &mut [Client],
    stirred: &mut Vec<usize>,
    primary: &mut Primary<S, K>,
    crew: &mut C,
) -> Result<(), TurnFault>
    requires none { stirred.old.items ≡ [] }
    requires ready { All (λ client. IsReady (length primary.old.log) client) clients.old }
    ensures ready { OnOk result (All (λ client. IsReady (length primary.new.log) client) clients.new) }
    ensures served { OnOk result (ServesTurn (IsServed (opening_rows_of primary.old)) (A.coming arrivals.old)
        (A.coming arrivals.new) (A.here arrivals.old) primary.old.log clients.old primary.new.log clients.new) }
    ensures outgoing { A.outgoing arrivals.new ≡ A.outgoing arrivals.old }
    ensures as_many { length clients.new ≡ length clients.old }
    ensures kept { OnOk result (K.model.Keeps primary.new.keeper primary.new.log ⊎ (stirred.new.items ≡ [])) }
    ensures calm { OnOk result (AreCalmBut stirred.new.items clients.old clients.new) }
    ensures untold { IfErr result (λ fault. IsLogFault fault → AreUntold clients.old clients.new) }
    // The bank goes on, after a fault too.
    ensures serves { ServesOn K.model C.keeps (as_session session_of_turn_fault result) primary.old primary.new }
    ensures stopped { OnErr result (StopsTurn (opening_rows_of primary.old) (A.coming arrivals.old)
        (A.coming arrivals.new) primary.old.log clients.old primary.new.log) }
    ensures kept_after_fault { IfErr result (λ fault. IsCrewFault fault
        → K.model.Keeps primary.new.keeper primary.new.log) }
{
    let taken = take_turn(arrivals, chunk, clients, stirred, primary, crew);
    if taken.is_ok() && stirred.is_empty() {
        return Ok(());
    }
    // What was numbered is kept, whatever ended the turn, and before anyone is told anything.
    primary.keep()?;
    taken?;
    tell_all(stirred, clients, primary)?;
    Ok(())
}

// Takes what has come, and has node 0 execute the whole log if someone is to be told something.
fn take_turn<A: Arrivals, S: CheckpointStore, K: Keeper, C: Crew>(
    arrivals: &mut A,
    chunk: &mut [u8],
    clients: &mut [Client],
    stirred: &mut Vec<usize>,
    primary: &mut Primary<S, K>,
    crew: &mut C,
) -> Result<(), CrewFault>
    requires none { stirred.old.items ≡ [] }
    requires ready { All (λ client. IsReady (length primary.old.log) client) clients.old }
    ensures sound { OnOk result (All (λ client. IsSound (length primary.new.log) client) clients.new) }
    ensures taken { OnOk result (ServesTurn (IsServing (opening_rows_of primary.old)) (A.coming arrivals.old)
        (A.coming arrivals.new) (A.here arrivals.old) primary.old.log clients.old primary.new.log clients.new) }
    ensures outgoing { A.outgoing arrivals.new ≡ A.outgoing arrivals.old }
    ensures as_many { length clients.new ≡ length clients.old }
    ensures there { All (λ k. k < length clients.new) stirred.new.items }
    ensures calm { OnOk result (AreCalmBut stirred.new.items clients.old clients.new) }
    ensures untold { AreUntold clients.old clients.new }
    ensures whole_log { OnOk result (HasWholeLog primary.new ⊎ (stirred.new.items ≡ [])) }
    // The bank goes on, after a fault too.
    ensures serves { ServesOn K.model C.keeps (as_session session_of_crew_fault result) primary.old primary.new }
    ensures log { StopsTurn (opening_rows_of primary.old) (A.coming arrivals.old) (A.coming arrivals.new)
        primary.old.log clients.old primary.new.log }
{
    take_arrivals(arrivals, chunk, clients, stirred, primary)?;
    if stirred.is_empty() {
        return primary.offer_rest(crew);
    }
    primary.settle(crew)
}
