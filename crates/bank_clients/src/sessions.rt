//! The sessions of clients who are served at once.
ghost use Rattle.std.specs.Prelude.{◌≡◌, ◌⊎◌, ◌≤◌, ◌∷◌, ℕ, List, [], length, IfErr, IfNone, IfOk, IfSome, OnErr, OnOk, slice_set};
ghost use Rattle.std.specs.List.{All};
ghost use Rattle.sb_calls.specs.declared.ask.Key.{Key as AnyKey};
ghost use Rattle.sb_calls.specs.declared.call.Call.{Call as AnyCall};
ghost use Rattle.sb_rows.specs.Rows.{Rows};
ghost use Rattle.bank_server.specs.Clients.{End, IsFreshClient, fresh_client};
ghost use Rattle.bank_server.specs.Primary.{opening_rows_of};
ghost use Rattle.bank_server.specs.ServesOn.{ServesOn};
ghost use Rattle.bank_server.specs.SessionFaults.{IsCrewFault, as_session, session_of_turn_fault};
ghost use Rattle.bank_clients.specs.History.{GoesOn, IsOverAt, unread_by_all, unread_limit};
ghost use Rattle.bank_clients.specs.Sessions.{AreListed, AreReady, AreSentBut, TakesUnread, fresh_clients, outside_of};
ghost use Rattle.bank_clients.specs.inner.Rounds.{AreToBeListed, HasMostUnreadAt, IsOverAlone};

use crate::connections::Connections;
use crate::delivery::{deliver_new, deliver_rest};
use crate::greediest::{find_greediest, is_exceeded};
use bank_server::{ClientLimits, Clients, Primary, SessionFault, TurnFault};
use cown_workers::{Crew, CrewFault};
use sb_ask_log::Keeper;
use sb_checkpoint::CheckpointStore;
use std::alloc::{AllocError, Global};
use std::io;
use std::marker::Model;

/// A session that is over.
#[derive(Clone, Copy, Debug, PartialEq, Eq)]
pub struct Over {
    /// The client's place, which no other client has until this one is left.
    pub place: usize,
    /// How it ended: with [`SessionFault::Device`] also if its connection doesn't take all outcomes.
    pub ending: Result<(), SessionFault>,
}

/// The sessions of clients who are served at once, over their connections.
#[derive(Drop)]
pub struct Sessions<A> {
    connections: A,
    clients: Clients,
    // The places of clients who ended, and aren't left yet.
    leaving: Vec<usize>,
    // Whether all clients together may have too much unread.
    may_exceed: bool,
}

impl<A> Model for Sessions<A> {
    ghost use Rattle.std.specs.Prelude.{◌≡◌, ◌≤◌, false};
    ghost use Rattle.bank_clients.specs.History.{unread_by_all, unread_limit};
    ghost use Rattle.bank_clients.specs.Sessions.{SessionsOf};

    ghost Value = { SessionsOf A };

    ghost view = { λ s. record {
      connections = s.connections;
      clients = s.clients;
      leaving = s.leaving.items;
    } };

    ghost invariant = { λ s. s.may_exceed ≡ false → unread_by_all s.clients.all ≤ unread_limit };
}

impl<A: Connections> Sessions<A> {
    /// No sessions yet, over these connections, with this many places for clients.
    ///
    /// Fails if memory is refused.
    pub fn open(
        alloc: Global,
        connections: A,
        places: usize,
        limits: ClientLimits,
    ) -> Result<Sessions<A>, AllocError>
    where
        A: Drop,
        ensures connections { IfOk result (λ sessions. sessions.connections ≡ connections) }
        // So many places, and each client there will have these limits.
        ensures clients { IfOk result (λ sessions. sessions.clients ≡ fresh_clients limits places) }
        ensures fresh { IfOk result (λ sessions. All IsFreshClient sessions.clients.all) }
        ensures ready { IfOk result (λ sessions. (calls : ℕ)
            → AreReady A.outgoing A.writable_places calls sessions) }
    {
        let mut clients = Clients::new(alloc, limits)?;
        for _ in 0..places {
            clients.join()?;
        }
        Ok(Sessions {
            connections,
            clients,
            leaving: Vec::with_capacity(alloc, places)?,
            may_exceed: false,
        })
    }

    /// The connections.
    pub fn connections(&self) -> &A
        ensures { result.now ≡ self.now.connections }
    {
        &self.connections
    }

    /// Waits until something arrives, a connection takes more, or one fails.
    ///
    /// Fails if the device fails.
    pub fn wait(&mut self) -> io::Result<()>
        ensures outside { outside_of A.coming A.outgoing self.new.connections
            ≡ outside_of A.coming A.outgoing self.old.connections }
        ensures unchanged { self.new ≡ record self.old { connections = self.new.connections } }
        ensures ready { (calls : ℕ) → AreReady A.outgoing A.writable_places calls self.old
            → AreReady A.outgoing A.writable_places calls self.new }
    {
        self.connections.wait()
    }

    /// Serves once around: what connections take goes out, a turn takes what arrived, and what is told
    /// then goes out too.
    ///
    /// Fails as [`Clients::turn`] does.
    pub fn serve<S: CheckpointStore, K: Keeper, C: Crew>(
        &mut self,
        primary: &mut Primary<S, K>,
        crew: &mut C,
    ) -> Result<(), TurnFault>
        requires ready { AreReady A.outgoing A.writable_places (length primary.old.log) self.old }
        // Whoever has ended is listed, and whoever has outcomes left has a connection that takes no more.
        ensures ready { OnOk result (AreReady A.outgoing A.writable_places (length primary.new.log) self.new
            × AreSentBut (A.outgoing self.new.connections).full [] self.new.clients.all) }
        // Each client is served as if its session were alone, by the log of all.
        ensures served { OnOk result (GoesOn (opening_rows_of primary.old)
            (outside_of A.coming A.outgoing self.old.connections) primary.old.log self.old.clients.all []
            (outside_of A.coming A.outgoing self.new.connections) primary.new.log self.new.clients.all) }
        // Nothing goes out but by a log that is kept, or what clients had unread before.
        ensures kept { OnOk result (K.model.Keeps primary.new.keeper primary.new.log ⊎ TakesUnread self.old.clients.all
            (A.outgoing self.old.connections).sent (A.outgoing self.new.connections).sent) }
        // After a fault nothing that the turn gave went out, but only what clients had unread before.
        ensures unsent { OnErr result (TakesUnread self.old.clients.all
            (A.outgoing self.old.connections).sent (A.outgoing self.new.connections).sent) }
        // After a fault that isn't the log's the whole log is kept.
        ensures kept_after_fault { IfErr result (λ fault. IsCrewFault fault
            → K.model.Keeps primary.new.keeper primary.new.log) }
        // What was kept stays kept, and a crew that keeps no job leaves none out, after a fault too.
        ensures serves { ServesOn K.model C.keeps (as_session session_of_turn_fault result) primary.old primary.new }
    {
        let may_exceed = self.may_exceed;
        // If the round isn't gone through, nothing is known of it.
        self.may_exceed = true;
        deliver_rest(&mut self.connections, &mut self.clients);
        self.clients.turn(&mut self.connections, primary, crew)?;
        if list_leaving(&self.clients, &mut self.leaving).is_err() {
            primary.keep()?;
            return Err(TurnFault::Crew(CrewFault::OutOfMemory));
        }
        deliver_new(&mut self.connections, &mut self.clients);
        self.may_exceed = is_exceeded(may_exceed, &self.clients);
        Ok(())
    }

    /// A session that is over now: its client ended, and its connection took all outcomes, or failed, or
    /// left too many unread. Or all clients together have too much unread, and nobody has more than this
    /// one. `None` if none is.
    pub fn next_over(&self) -> Option<Over>
        requires { AreListed self.now.leaving self.now.clients.all }
        ensures over { IfSome result (λ over. IsOverAt self.now.clients.all over.place over.ending) }
        ensures none { IfNone result ((place : ℕ) (end : End) → ¬ IsOverAt self.now.clients.all place end) }
        ensures few_unread { IfNone result (unread_by_all self.now.clients.all ≤ unread_limit) }
    {
        for place in &self.leaving {
            if let Some(ending) = self.over_at(*place) {
                return Some(Over {
                    place: *place,
                    ending,
                });
            }
        }
        // Clients who are over anyway leave first: without what they left, too much may not be unread.
        let place = self.greediest()?;
        Some(Over {
            place,
            ending: Err(SessionFault::Device),
        })
    }

    // The place of a client who has most unread, if all together have too much.
    fn greediest(&self) -> Option<usize>
        ensures most { IfSome result (λ place. HasMostUnreadAt self.now.clients.all place) }
        ensures few { IfNone result (unread_by_all self.now.clients.all ≤ unread_limit) }
    {
        if self.may_exceed {
            find_greediest(&self.clients)
        } else {
            None
        }
    }

    // How the session at a place is over by its own client, if it is.
    fn over_at(&self, place: usize) -> Option<Result<(), SessionFault>>
        ensures over { IfSome result (λ ending. IsOverAlone self.now.clients.all place ending) }
        ensures none { IfNone result ((end : End) → ¬ IsOverAlone self.now.clients.all place end) }
    {
        if place >= self.clients.len() {
            return None;
        }
        let ending = self.clients.ending(place)?;
        if self.clients.outcomes(place).is_empty() {
            return Some(ending);
        }
        // Who leaves too much unread isn't waited for.
        if ending == Err(SessionFault::Device) || self.clients.is_broken(place) {
            return Some(Err(SessionFault::Device));
        }
        None
    }

    /// Leaves the client of a session that is over, whose place is free then. One that sent what it may
    /// not is notified that nothing more comes.
    pub fn leave(&mut self, over: Over)
        requires { IsOverAt self.old.clients.all over.place over.ending }
        ensures left { (opening : Rows) (log : List (AnyKey × AnyCall)) → GoesOn opening
            (outside_of A.coming A.outgoing self.old.connections) log self.old.clients.all (over.ending ∷ [])
            (outside_of A.coming A.outgoing self.new.connections) log self.new.clients.all }
        ensures vacated { self.new.clients.all ≡ slice_set self.old.clients.all over.place
            (fresh_client self.old.clients.limits) }
        ensures ready { (calls : ℕ) → AreReady A.outgoing A.writable_places calls self.old
            → AreReady A.outgoing A.writable_places calls self.new }
    {
        let counts = self.clients.ask_counts(over.place);
        let is_at_fault = matches!(
            over.ending,
            Err(SessionFault::Frame(_) | SessionFault::Unexpected | SessionFault::TooMany)
        );
        self.connections.leave(over.place, is_at_fault, counts);
        self.clients.vacate(over.place);
        self.leaving.retain(|place| *place != over.place);
    }
}

// Adds the places of those who ended in the last turn. There is room for all places.
fn list_leaving(clients: &Clients, leaving: &mut Vec<usize>) -> Result<(), AllocError>
    requires { AreToBeListed leaving.old.items clients.now.stirred clients.now.all }
    ensures { OnOk result (AreListed leaving.new.items clients.now.all) }
{
    for place in clients.stirred() {
        let has_ended = *place < clients.len() && clients.ending(*place).is_some();
        if has_ended && !leaving.contains(place) {
            leaving.push(*place)?;
        }
    }
    Ok(())
}
