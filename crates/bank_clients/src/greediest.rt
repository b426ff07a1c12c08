//! Who is ended if all clients together have too much unread.
ghost use Rattle.std.specs.Prelude.{◌≡◌, ◌⊎◌, ◌↔◌, ◌≤◌, ◌<◌, Some, false, true, length, IfNone, IfSome, IsTrue, slice_get};
ghost use Rattle.std.specs.List.{All};
ghost use Rattle.bank_server.specs.Clients.{ClientOf};
ghost use Rattle.bank_clients.specs.History.{unread_by_all, unread_limit};
ghost use Rattle.bank_clients.specs.inner.Rounds.{HasMostUnreadAt, HaveNoneUnread};

use bank_server::Clients;

// The most bytes of outcomes that all clients together may leave unread.
const UNREAD: usize = 268_435_456;

/// Whether all clients together have too much unread behind a turn, where this says whether they may
/// have had it before. If not, and all whom it told something have taken all, nobody else is looked at.
pub(crate) fn is_exceeded(might_before: bool, clients: &Clients) -> bool
    ensures much { result ≡ true → unread_limit < unread_by_all clients.now.all }
    ensures few { result ≡ false → (unread_by_all clients.now.all ≤ unread_limit)
        ⊎ ((might_before ≡ false) × HaveNoneUnread clients.now.stirred clients.now.all) }
{
    (might_before || is_left(clients)) && has_too_much_unread(clients)
}

/// The place of a client who has most unread, if all together have too much.
pub(crate) fn find_greediest(clients: &Clients) -> Option<usize>
    ensures most { IfSome result (λ place. HasMostUnreadAt clients.now.all place) }
    ensures few { IfNone result (unread_by_all clients.now.all ≤ unread_limit) }
{
    if has_too_much_unread(clients) {
        Some(most_unread(clients))
    } else {
        None
    }
}

// Whether something is left for those whom the last turn told something.
fn is_left(clients: &Clients) -> bool
    ensures some { result ≡ true → ¬ HaveNoneUnread clients.now.stirred clients.now.all }
    ensures none { result ≡ false → HaveNoneUnread clients.now.stirred clients.now.all }
{
    for place in clients.stirred() {
        if *place < clients.len() && !clients.outcomes(*place).is_empty() {
            return true;
        }
    }
    false
}

// Whether all clients together have too much unread.
fn has_too_much_unread(clients: &Clients) -> bool
    ensures { IsTrue result ↔ (unread_limit < unread_by_all clients.now.all) }
{
    let mut left = UNREAD;
    for place in 0..clients.len() {
        let unread = clients.outcomes(place).len();
        if unread > left {
            return true;
        }
        left -= unread;
    }
    false
}

// The first place of a client of whom nobody has more unread.
fn most_unread(clients: &Clients) -> usize
    requires { 0 < length clients.now.all }
    ensures { (client : ClientOf) × (slice_get clients.now.all result ≡ Some client)
        × All (λ other. length other.outcomes ≤ length client.outcomes) clients.now.all }
{
    let mut most = 0;
    for place in 0..clients.len() {
        if clients.outcomes(place).len() > clients.outcomes(most).len() {
            most = place;
        }
    }
    most
}
