//! What goes out.
ghost use Rattle.std.specs.Prelude.{◌≡◌, ◌∷◌, ℕ, List, [], IfSome};
ghost use Rattle.bank_server.specs.Clients.{StaysReady};
ghost use Rattle.bank_clients.specs.Sessions.{AreSentBut, outside_of};
ghost use Rattle.bank_clients.specs.inner.Rounds.{LeavesRest, StandsBy, endings_of};

use crate::connections::Connections;
use bank_server::Clients;

/// Sends each client whom the last turn told something as much of it as its connection takes.
pub(crate) fn deliver_new<A: Connections>(connections: &mut A, clients: &mut Clients)
    ensures stands { StandsBy (outside_of A.coming A.outgoing connections.old) clients.old.all
        (outside_of A.coming A.outgoing connections.new) clients.new.all }
    // If it was told to nobody else, nobody waits whose connection takes more.
    ensures sent { AreSentBut (A.outgoing connections.old).full clients.old.stirred clients.old.all
        → AreSentBut (A.outgoing connections.new).full [] clients.new.all }
    ensures rest { LeavesRest clients.old.all clients.new.all
        (A.outgoing connections.old).sent (A.outgoing connections.new).sent }
    ensures ready { StaysReady clients.old.all clients.new.all }
    ensures endings { endings_of clients.new.all ≡ endings_of clients.old.all }
    ensures stirred { clients.new.stirred ≡ clients.old.stirred }
{
    for index in 0..clients.stirred().len() {
        let place = clients.stirred().get(index).copied();
        deliver(place, connections, clients);
    }
}

/// Sends each client whose connection takes more again as much of what is left as it takes.
pub(crate) fn deliver_rest<A: Connections>(connections: &mut A, clients: &mut Clients)
    ensures stands { StandsBy (outside_of A.coming A.outgoing connections.old) clients.old.all
        (outside_of A.coming A.outgoing connections.new) clients.new.all }
    ensures sent { AreSentBut (A.outgoing connections.old).full (A.writable_places connections.old) clients.old.all
        → AreSentBut (A.outgoing connections.new).full [] clients.new.all }
    ensures rest { LeavesRest clients.old.all clients.new.all
        (A.outgoing connections.old).sent (A.outgoing connections.new).sent }
    ensures ready { StaysReady clients.old.all clients.new.all }
    ensures endings { endings_of clients.new.all ≡ endings_of clients.old.all }
{
    for index in 0..connections.writable().len() {
        let place = connections.writable().get(index).copied();
        deliver(place, connections, clients);
    }
}

// Sends the client at a place what its connection takes, if there is such a client.
fn deliver<A: Connections>(place: Option<usize>, connections: &mut A, clients: &mut Clients)
    ensures stands { StandsBy (outside_of A.coming A.outgoing connections.old) clients.old.all
        (outside_of A.coming A.outgoing connections.new) clients.new.all }
    ensures sent { IfSome place (λ place. (places : List ℕ)
        → AreSentBut (A.outgoing connections.old).full (place ∷ places) clients.old.all
        → AreSentBut (A.outgoing connections.new).full places clients.new.all) }
    ensures rest { LeavesRest clients.old.all clients.new.all
        (A.outgoing connections.old).sent (A.outgoing connections.new).sent }
    ensures ready { StaysReady clients.old.all clients.new.all }
    ensures endings { endings_of clients.new.all ≡ endings_of clients.old.all }
    ensures stirred { clients.new.stirred ≡ clients.old.stirred }
    ensures writable { A.writable_places connections.new ≡ A.writable_places connections.old }
{
    let Some(place) = place else {
        return;
    };
    if place >= clients.len() {
        return;
    }
    let count = connections.send(place, clients.outcomes(place));
    clients.sent(place, count);
}
