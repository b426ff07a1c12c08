//! A server.
ghost use Rattle.std.specs.Prelude.{◌≡◌, ◌⊎◌, ◌∷◌, [], false, true, length, IfErr, IfOk, OnOk};
ghost use Rattle.cown_workers.specs.Draining.{HasNoneOut};
ghost use Rattle.bank_server.specs.Primary.{PreservesBank, opening_rows_of};
ghost use Rattle.bank_clients.specs.History.{GoesOn, HistoryOf, IsOverAt, ServesEach};
ghost use Rattle.bank_clients.specs.Sessions.{AreReady, outside_of};
ghost use Rattle.bank_service.specs.ServeFaults.{IsFinishFault, IsServingFault};
ghost use Rattle.bank_service.specs.ServedAtOnce.{ServesAtOnce};
ghost use Rattle.bank_service.specs.ServedBank.{IsBankAfter};
ghost use Rattle.bank_service.specs.ServeOutput.{PrintsLines, session_line};
ghost use Rattle.bank_service.specs.inner.AtOnceSteps.{ServesOver, ServesSome};
ghost use Rattle.bank_service.specs.inner.StepFaults.{IsPrintFault, serve_of_turn_fault};

use crate::followers::{compare_if_due, feed_if_many};
use crate::printing::{print_log, print_port, print_rows, print_session};
use crate::serve_fault::ServeFault;
use crate::session_end::finish_session;
use bank_clients::{Connections, Over, Sessions};
use bank_server::{Duty, Followers, Primary, SessionFault, TurnFault, WorkerCount};
use cown_workers::Crew;
use program_words::Plan;
use sb_ask_log::{Keeper, NoKeeper};
use sb_checkpoint::CheckpointStore;
use std::alloc::Global;
use std::io::Write;
use std::sync::Wait;
use std::thread::Threads;
use std::time::Clock;

/// A bank, the sessions of its clients, and the writer where it prints.
#[derive(Drop)]
pub struct Server<A, S: CheckpointStore, W, K: Keeper = NoKeeper> {
    /// The allocator.
    pub alloc: Global,
    /// How the bank is served.
    pub plan: Plan,
    /// The port where clients are accepted.
    pub port: u16,
    /// The sessions.
    pub sessions: Sessions<A>,
    /// The bank.
    pub primary: Primary<S, K>,
    /// Where the server prints.
    pub writer: W,
}

impl<A, S, W, K> Duty for Server<A, S, W, K>
where
    A: Connections + Drop,
    S: CheckpointStore,
    W: Write + Drop,
    K: Keeper,
{
    type Answer = Result<Server<A, S, W, K>, ServeFault>;

    ghost ready = { λ server. HasNoneOut server.primary.node.board
        × AreReady A.outgoing A.writable_places (length server.primary.log) server.sessions
        × ((h : HistoryOf)
        × ServesEach (opening_rows_of server.primary) h server.primary.log server.sessions.clients.all) };

    ghost does = { λ server nodes workers keeps answer. IfOk answer (λ bank. ServesAtOnce S.model K.model
        server.plan server.port
        (outside_of A.coming A.outgoing server.sessions.connections)
        (outside_of A.coming A.outgoing bank.sessions.connections)
        server.sessions.clients.all bank.sessions.clients.all server.primary bank.primary
        (W.contents server.writer) (W.contents bank.writer))
        × IfErr answer (IsServingFault nodes (keeps ≡ true) server.plan.saves K.model.fails) };

    // Serves the bank, and prints its whole output.
    fn carry_out<R, C>(
        self,
        rt: &R,
        followers: &mut Followers<'_, R>,
        crew: &mut C,
    ) -> Result<Server<A, S, W, K>, ServeFault>
    where
        R: Threads + Wait + Clock,
        C: Crew + WorkerCount,
    {
        let mut server = self;
        server.serve_whole(rt, followers, crew)?;
        Ok(server)
    }
}

impl<A, S, W, K> Server<A, S, W, K>
where
    A: Connections,
    S: CheckpointStore,
    W: Write,
    K: Keeper,
{
    // Serves the bank, and prints its whole output.
    fn serve_whole<R, C>(
        &mut self,
        rt: &R,
        followers: &mut Followers<'_, R>,
        crew: &mut C,
    ) -> Result<(), ServeFault>
    where
        R: Threads + Wait + Clock,
        C: Crew,
        requires none_out { HasNoneOut self.old.primary.node.board }
        requires ready { AreReady A.outgoing A.writable_places (length self.old.primary.log) self.old.sessions }
        requires begun { (h : HistoryOf)
            × ServesEach (opening_rows_of self.old.primary) h self.old.primary.log self.old.sessions.clients.all }
        ensures served { OnOk result (ServesAtOnce S.model K.model self.old.plan self.old.port
            (outside_of A.coming A.outgoing self.old.sessions.connections)
            (outside_of A.coming A.outgoing self.new.sessions.connections)
            self.old.sessions.clients.all self.new.sessions.clients.all self.old.primary self.new.primary
            (W.contents self.old.writer) (W.contents self.new.writer)) }
        ensures fault { IfErr result (IsServingFault followers.old.nodes (C.keeps ≡ true) self.old.plan.saves
            K.model.fails) }
    {
        // The log that the bank opens with is executed, and sent to the followers.
        finish_session(&mut self.primary, followers, false, crew)?;
        followers.compare_if_due(self.primary.node())?;
        print_log(self.alloc, &self.primary, &mut self.writer)?;
        print_port(self.alloc, self.plan.host, self.port, &mut self.writer)?;
        self.serve_all(rt, followers, crew)?;
        finish_session(&mut self.primary, followers, self.plan.saves, crew)?;
        followers.compare(self.primary.node())?;
        print_log(self.alloc, &self.primary, &mut self.writer)?;
        print_rows(self.alloc, &self.primary, &mut self.writer)
    }

    // Serves clients, until as many sessions are over as the plan has.
    fn serve_all<R, C>(
        &mut self,
        rt: &R,
        followers: &mut Followers<'_, R>,
        crew: &mut C,
    ) -> Result<(), ServeFault>
    where
        R: Wait,
        C: Crew,
        requires none_out { C.keeps ≡ false → HasNoneOut self.old.primary.node.board }
        requires ready { AreReady A.outgoing A.writable_places (length self.old.primary.log) self.old.sessions }
        requires begun { (h : HistoryOf)
            × ServesEach (opening_rows_of self.old.primary) h self.old.primary.log self.old.sessions.clients.all }
        ensures served { OnOk result (ServesSome S.model K.model self.old.plan.saves self.old.plan.sessions
            (outside_of A.coming A.outgoing self.old.sessions.connections)
            (outside_of A.coming A.outgoing self.new.sessions.connections)
            self.old.sessions.clients.all self.new.sessions.clients.all self.old.primary self.new.primary
            (W.contents self.old.writer) (W.contents self.new.writer)) }
        ensures none_out { OnOk result (C.keeps ≡ false → HasNoneOut self.new.primary.node.board) }
        ensures nodes { followers.new.nodes ≡ followers.old.nodes }
        ensures plan { self.new.plan ≡ self.old.plan }
        ensures fault { IfErr result (IsServingFault followers.old.nodes (C.keeps ≡ true) self.old.plan.saves
            K.model.fails) }
    {
        for before in 0..self.plan.sessions {
            self.serve_next(before + 1, rt, followers, crew)?;
        }
        Ok(())
    }

    // Serves clients, until one more session is over, which has this number.
    fn serve_next<R, C>(
        &mut self,
        number: usize,
        rt: &R,
        followers: &mut Followers<'_, R>,
        crew: &mut C,
    ) -> Result<(), ServeFault>
    where
        R: Wait,
        C: Crew,
        requires ready { AreReady A.outgoing A.writable_places (length self.old.primary.log) self.old.sessions }
        requires begun { (h : HistoryOf)
            × ServesEach (opening_rows_of self.old.primary) h self.old.primary.log self.old.sessions.clients.all }
        ensures served { OnOk result (ServesOver S.model K.model self.old.plan.saves number
            (outside_of A.coming A.outgoing self.old.sessions.connections)
            (outside_of A.coming A.outgoing self.new.sessions.connections)
            self.old.sessions.clients.all self.new.sessions.clients.all self.old.primary self.new.primary
            (W.contents self.old.writer) (W.contents self.new.writer)) }
        ensures ready { OnOk result
            (AreReady A.outgoing A.writable_places (length self.new.primary.log) self.new.sessions) }
        ensures none_out { OnOk result (HasNoneOut self.new.primary.node.board) }
        ensures nodes { followers.new.nodes ≡ followers.old.nodes }
        ensures plan { self.new.plan ≡ self.old.plan }
        ensures fault { IfErr result (IsServingFault followers.old.nodes
            (C.keeps ≡ false → ¬ HasNoneOut self.old.primary.node.board) self.old.plan.saves K.model.fails) }
    {
        let mut fed = self.primary.log().length();
        for _ in rt.forever() {
            if let Some(over) = self.sessions.next_over() {
                return self.end_session(number, over, followers, crew);
            }
            self.serve_round(number, &mut fed, followers, crew)?;
        }
        unreachable!()
    }

    // Waits until there is something to do, serves once around, and compares node 0 with the followers, if
    // that is due. If serving fails, the session with this number is the next that is over.
    fn serve_round<R: Wait, C: Crew>(
        &mut self,
        number: usize,
        fed: &mut u64,
        followers: &mut Followers<'_, R>,
        crew: &mut C,
    ) -> Result<(), ServeFault>
        requires ready { AreReady A.outgoing A.writable_places (length self.old.primary.log) self.old.sessions }
        ensures ready { OnOk result
            (AreReady A.outgoing A.writable_places (length self.new.primary.log) self.new.sessions) }
        ensures goes_on { OnOk result (GoesOn (opening_rows_of self.old.primary)
            (outside_of A.coming A.outgoing self.old.sessions.connections) self.old.primary.log
            self.old.sessions.clients.all [] (outside_of A.coming A.outgoing self.new.sessions.connections)
            self.new.primary.log self.new.sessions.clients.all) }
        ensures bank { PreservesBank K.model self.old.primary self.new.primary }
        ensures none_out { C.keeps ≡ false → HasNoneOut self.old.primary.node.board
            → HasNoneOut self.new.primary.node.board }
        ensures writer { OnOk result (W.contents self.new.writer ≡ W.contents self.old.writer) }
        ensures nodes { followers.new.nodes ≡ followers.old.nodes }
        ensures plan { self.new.plan ≡ self.old.plan }
        ensures fault { IfErr result (IsServingFault followers.old.nodes
            (C.keeps ≡ false → ¬ HasNoneOut self.old.primary.node.board) self.old.plan.saves K.model.fails) }
    {
        self.sessions.wait()?;
        if let Err(fault) = self.sessions.serve(&mut self.primary, crew) {
            return Err(self.stop(number, fault));
        }
        feed_if_many(self.primary.log(), fed, followers)?;
        compare_if_due(&mut self.primary, followers, crew)
    }

    // Prints how the next session ended, of a server that ends with this fault.
    fn stop(&mut self, number: usize, fault: TurnFault) -> ServeFault
        ensures fault { IsPrintFault result ⊎ (result ≡ serve_of_turn_fault fault) }
        ensures primary { self.new.primary ≡ self.old.primary }
        ensures plan { self.new.plan ≡ self.old.plan }
    {
        let ending = Err(SessionFault::from(fault));
        match print_session(self.alloc, number, ending, &mut self.writer) {
            Ok(()) => ServeFault::from(fault),
            Err(fault) => fault,
        }
    }

    // Ends a session that is over, which has this number.
    fn end_session<R, C>(
        &mut self,
        number: usize,
        over: Over,
        followers: &mut Followers<'_, R>,
        crew: &mut C,
    ) -> Result<(), ServeFault>
    where
        R: Wait,
        C: Crew,
        requires over { IsOverAt self.old.sessions.clients.all over.place over.ending }
        requires ready { AreReady A.outgoing A.writable_places (length self.old.primary.log) self.old.sessions }
        ensures printed { OnOk result (PrintsLines (session_line number over.ending ∷ [])
            (W.contents self.old.writer) (W.contents self.new.writer)) }
        ensures bank_after { OnOk result (IsBankAfter S.model K.model self.old.plan.saves 1
            self.old.primary self.new.primary) }
        ensures log { self.new.primary.log ≡ self.old.primary.log }
        // Its client has left, and no other one.
        ensures left { OnOk result (GoesOn (opening_rows_of self.old.primary)
            (outside_of A.coming A.outgoing self.old.sessions.connections) self.old.primary.log
            self.old.sessions.clients.all (over.ending ∷ [])
            (outside_of A.coming A.outgoing self.new.sessions.connections)
            self.old.primary.log self.new.sessions.clients.all) }
        ensures ready { OnOk result
            (AreReady A.outgoing A.writable_places (length self.new.primary.log) self.new.sessions) }
        ensures nodes { followers.new.nodes ≡ followers.old.nodes }
        ensures plan { self.new.plan ≡ self.old.plan }
        ensures fault { IfErr result (IsFinishFault (C.keeps ≡ false → ¬ HasNoneOut self.old.primary.node.board)
            self.old.plan.saves K.model.fails) }
    {
        // The stream stays open until the session is finished, and ends as the client is left. So a
        // client whose stream ends while the server goes on knows that its asks are saved.
        finish_session(&mut self.primary, followers, self.plan.saves, crew)?;
        let printed = print_session(self.alloc, number, over.ending, &mut self.writer);
        self.sessions.leave(over);
        printed
    }
}
