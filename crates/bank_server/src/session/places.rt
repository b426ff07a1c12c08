//! The places of clients: new ones, those that are left, and what connections take.
ghost use Rattle.std.specs.Prelude.{◌≡◌, ◌≤◌, ◌<◌, ◌∷◌, ◌++◌, [], drop, length, take, IfOk, IfSome, OnErr, OnOk, slice_get, slice_set};
ghost use Rattle.bank_server.specs.Clients.{StaysReady, StaysServed, fresh_client, no_past, past_with, sends};

use super::client::Client;
use super::client_limits::ClientLimits;
use std::alloc::{AllocError, Global};

/// A new place, behind the others.
///
/// Fails if memory is refused; nothing changes then.
pub(crate) fn add_client(
    alloc: Global,
    limits: ClientLimits,
    all: &mut Vec<Client>,
) -> Result<usize, AllocError>
    ensures place { IfOk result (λ place. place ≡ length all.old.items) }
    ensures joined { OnOk result (all.new.items ≡ all.old.items ++ fresh_client limits ∷ []) }
    ensures ready { OnOk result (StaysReady all.old.items all.new.items) }
    ensures served { OnOk result (StaysServed (past_with (length all.old.items) no_past) all.old.items all.new.items) }
    ensures err { OnErr result (all.new.items ≡ all.old.items) }
{
    let place = all.len();
    all.push(Client::new(alloc, limits))?;
    Ok(place)
}

/// The client at a place has left.
pub(crate) fn vacate_place(alloc: Global, limits: ClientLimits, all: &mut [Client], place: usize)
    requires { place < length all.old }
    ensures vacated { all.new ≡ slice_set all.old place (fresh_client limits) }
    ensures ready { StaysReady all.old all.new }
    ensures served { StaysServed (past_with place no_past) all.old all.new }
{
    all[place] = Client::new(alloc, limits);
}

/// A client's connection takes this many bytes of its outcomes.
pub(crate) fn take_sent(all: &mut [Client], place: usize, count: usize)
    requires place { place < length all.old }
    requires count { IfSome (slice_get all.old place) (λ client. count ≤ length client.outcomes) }
    ensures taken { IfSome (slice_get all.old place) (λ client. all.new
        ≡ slice_set all.old place (record client { outcomes = drop count client.outcomes })) }
    ensures ready { StaysReady all.old all.new }
    ensures served { IfSome (slice_get all.old place) (λ client. StaysServed
        (sends place (take count client.outcomes)) all.old all.new) }
{
    all[place].sent(count);
}
