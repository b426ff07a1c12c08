//! What a turn takes from clients who are served at once, and what it tells them.
ghost use Rattle.std.specs.Prelude.{◌≡◌, ◌≤◌, ◌<◌, ◌↔◌, ◌∷◌, [], List, length, false, IfOk, IfSome, IsTrue, OnErr, OnOk};
ghost use Rattle.std.specs.List.{All};
ghost use Rattle.bank_server.specs.Clients.{AreCalmBut, AreUntold, ClientOf, IsSound, StopsTurn, TakesArrivals, ServesTurn, piece_of};
ghost use Rattle.bank_server.specs.inner.ClientTurns.{AreDueWithin, BringsFrameAt, HearsClient, IsServing, StopsHearing, StopsTaking, TellsClients};
ghost use Rattle.bank_server.specs.Primary.{HasWholeLog, opening_rows_of};
ghost use Rattle.bank_server.specs.inner.NumberedAsks.{NumbersAsks};

use super::arrivals::{Arrival, Arrivals};
use super::client::{Client, hear, tell_client};
use crate::node0::Primary;
use sb_ask_log::Keeper;
use sb_checkpoint::CheckpointStore;
use std::alloc::AllocError;

/// Takes what has come, in this order, whoever sent it, and lists those who are to be told
/// something, or ended. At most as many arrivals are taken as there are clients.
///
/// Fails if memory is refused.
pub(crate) fn take_arrivals<A: Arrivals, S: CheckpointStore, K: Keeper>(
    arrivals: &mut A,
    chunk: &mut [u8],
    clients: &mut [Client],
    stirred: &mut Vec<usize>,
    primary: &mut Primary<S, K>,
) -> Result<(), AllocError>
    requires none { stirred.old.items ≡ [] }
    requires none_due { All (λ client. client.due ≡ 0) clients.old }
    requires sound { All (λ client. IsSound (length primary.old.log) client) clients.old }
    ensures sound { OnOk result (All (λ client. IsSound (length primary.new.log) client) clients.new) }
    ensures taken { OnOk result (ServesTurn (IsServing (opening_rows_of primary.old)) (A.coming arrivals.old)
        (A.coming arrivals.new) (A.here arrivals.old) primary.old.log clients.old primary.new.log clients.new) }
    // If memory is refused the log is that of frames that came.
    ensures stopped { OnErr result (StopsTurn (opening_rows_of primary.old) (A.coming arrivals.old)
        (A.coming arrivals.new) primary.old.log clients.old primary.new.log) }
    ensures there { All (λ k. k < length clients.new) stirred.new.items }
    ensures calm { OnOk result (AreCalmBut stirred.new.items clients.old clients.new) }
    ensures untold { AreUntold clients.old clients.new }
    ensures outgoing { A.outgoing arrivals.new ≡ A.outgoing arrivals.old }
    ensures as_many { length clients.new ≡ length clients.old }
    ensures numbered { NumbersAsks K.model primary.old primary.new }
{
    for _ in 0..clients.len() {
        let Some(arrival) = arrivals.next(chunk) else {
            return Ok(());
        };
        let has_frame = take_arrival(arrival, chunk, clients, stirred, primary)?;
        note_frame(arrival.client, has_frame, arrivals);
    }
    Ok(())
}

// Notes where a client's bytes arrive that a whole frame has come from it, if one has.
fn note_frame<A: Arrivals>(client: usize, has_frame: bool, arrivals: &mut A)
    ensures coming { A.coming arrivals.new ≡ A.coming arrivals.old }
    ensures here { A.here arrivals.new ≡ A.here arrivals.old }
    ensures outgoing { A.outgoing arrivals.new ≡ A.outgoing arrivals.old }
{
    if has_frame {
        arrivals.heard(client);
    }
}

// Takes what came from one client, and answers whether it goes on and a frame became whole. Of a client that
// isn't there nothing is taken.
fn take_arrival<S: CheckpointStore, K: Keeper>(
    arrival: Arrival,
    chunk: &[u8],
    clients: &mut [Client],
    stirred: &mut Vec<usize>,
    primary: &mut Primary<S, K>,
) -> Result<bool, AllocError>
    requires count { IfSome arrival.read (λ count. count ≤ length chunk.now) }
    requires sound { All (λ client. IsSound (length primary.old.log) client) clients.old }
    requires there { All (λ k. k < length clients.old) stirred.old.items }
    ensures sound { OnOk result (All (λ client. IsSound (length primary.new.log) client) clients.new) }
    ensures taken { OnOk result (TakesArrivals (IsServing (opening_rows_of primary.old)) primary.old.log clients.old
        ((arrival.client, piece_of chunk.now arrival.read) ∷ []) primary.new.log clients.new) }
    ensures stopped { OnErr result (StopsTaking (IsServing (opening_rows_of primary.old)) primary.old.log clients.old
        ((arrival.client, piece_of chunk.now arrival.read) ∷ []) primary.new.log) }
    ensures there { All (λ k. k < length clients.new) stirred.new.items }
    ensures calm { OnOk result ((first : List ClientOf) → AreCalmBut stirred.old.items first clients.old
        → AreCalmBut stirred.new.items first clients.new) }
    ensures whole { IfOk result (λ has_frame. IsTrue has_frame
        ↔ BringsFrameAt arrival.client clients.old (piece_of chunk.now arrival.read) clients.new) }
    ensures untold { AreUntold clients.old clients.new }
    ensures as_many { length clients.new ≡ length clients.old }
    ensures numbered { NumbersAsks K.model primary.old primary.new }
{
    if arrival.client >= clients.len() {
        return Ok(false);
    }
    // Its slot is reserved before anything is numbered.
    stirred.reserve(1)?;
    let client = &mut clients[arrival.client];
    let had_ended = client.has_ended();
    let has_frame = hear(chunk, arrival.read, client, primary)?;
    if client.is_stirred(had_ended) {
        stirred.push_reserved(arrival.client);
    }
    Ok(has_frame)
}

/// Takes a piece of what comes from a client, and answers whether it is to be told something, or
/// ended just now.
///
/// Fails if memory is refused.
pub(crate) fn stir<S: CheckpointStore, K: Keeper>(
    chunk: &[u8],
    read: Option<usize>,
    client: &mut Client,
    primary: &mut Primary<S, K>,
) -> Result<bool, AllocError>
    requires count { IfSome read (λ count. count ≤ length chunk.now) }
    requires sound { IsSound (length primary.old.log) client.old }
    ensures sound { OnOk result (IsSound (length primary.new.log) client.new) }
    ensures heard { OnOk result (HearsClient (opening_rows_of primary.old) primary.old.log client.old
        (piece_of chunk.now read) primary.new.log client.new) }
    ensures stopped { OnErr result (StopsHearing (opening_rows_of primary.old) primary.old.log client.old
        (piece_of chunk.now read) primary.new.log) }
    ensures limits { client.new.limits ≡ client.old.limits }
    ensures calm { IfOk result (λ stirred. stirred ≡ false
        → (client.new.ending ≡ client.old.ending) × (client.new.due ≡ 0)) }
    ensures outcomes { client.new.outcomes ≡ client.old.outcomes }
    ensures numbered { NumbersAsks K.model primary.old primary.new }
{
    let had_ended = client.has_ended();
    hear(chunk, read, client, primary)?;
    Ok(client.is_stirred(had_ended))
}

/// Gives these clients the outcomes that are due to them, by a log that is executed and kept.
///
/// Fails if memory is refused.
pub(crate) fn tell_all<S: CheckpointStore, K: Keeper>(
    stirred: &[usize],
    clients: &mut [Client],
    primary: &Primary<S, K>,
) -> Result<(), AllocError>
    requires whole_log { HasWholeLog primary.now }
    requires kept { K.model.Keeps primary.now.keeper primary.now.log }
    requires there { All (λ k. k < length clients.old) stirred.now }
    requires due { AreDueWithin stirred.now clients.old }
    requires sound { All (λ client. IsSound (length primary.now.log) client) clients.old }
    ensures sound { OnOk result (All (λ client. IsSound (length primary.now.log) client) clients.new) }
    ensures none_due { OnOk result (AreDueWithin [] clients.new) }
    ensures told { OnOk result (TellsClients (opening_rows_of primary.now) primary.now.log clients.old clients.new) }
    // Nobody else is told anything.
    ensures calm { OnOk result ((first : List ClientOf) → AreCalmBut stirred.now first clients.old
        → AreCalmBut stirred.now first clients.new) }
    ensures as_many { length clients.new ≡ length clients.old }
{
    for slot in stirred {
        tell_client(&mut clients[*slot], primary)?;
    }
    Ok(())
}
