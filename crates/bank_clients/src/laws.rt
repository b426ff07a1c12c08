//! What holds of clients who are served at once.
ghost use Rattle.bank_clients.specs.History.{BeginsServed};

/// Clients before their first byte are served as if their sessions were alone, by any log that is
/// there. From then on they stay so, whatever happens.
pub fn begins_served()
    ensures { BeginsServed }
{}
