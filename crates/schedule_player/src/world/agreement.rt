//! The replication theorem as functions that run: two replicas are asked, and compared.
ghost use Rattle.std.specs.Prelude.{◌≡◌, ◌<◌, ◌↔◌, true, Some, length, IsTrue};
ghost use Rattle.sb_calls.specs.declared.reply.Reply.{Reply as AnyReply};

use crate::world::World;
use crate::world::auditing::first_place;
use sb_calls::Reply;

// Whether two replies are the same. Here `==` gets its clause.
fn is_same_reply(one: Reply, other: Reply) -> bool
    ensures { IsTrue result ↔ (one ≡ other) }
{
    one == other
}

// Whether two boards' replies are the same, if neither is missing.
fn have_same_reply(one: Option<Reply>, other: Option<Reply>) -> bool
    ensures { IsTrue result ↔ ((x y : AnyReply) → one ≡ Some x → other ≡ Some y → x ≡ y) }
{
    match (one, other) {
        (Some(one), Some(other)) => is_same_reply(one, other),
        _ => true,
    }
}

impl World {
    /// Asks the boards of two replicas for their replies to a number, and answers whether these are
    /// the same. It is also `true` if a board has none.
    pub fn replies_agree(&self, a: u32, b: u32, number: u64) -> bool
        requires replicas { (a < length self.now.nodes) × (b < length self.now.nodes) }
        // They are the same, whatever happened.
        ensures agree { result ≡ true }
    {
        have_same_reply(self.reply(a, number), self.reply(b, number))
    }

    /// Asks the boards of two replicas for their columns, and answers whether these are the same at
    /// every place. It is also `true` if a replica isn't idle, or their lengths differ.
    pub fn rows_agree(&self, a: u32, b: u32) -> bool
        requires replicas { (a < length self.now.nodes) × (b < length self.now.nodes) }
        // They are the same, whatever happened.
        ensures agree { result ≡ true }
    {
        let Some(left) = self.columns(a) else {
            return true;
        };
        let Some(right) = self.columns(b) else {
            return true;
        };
        self.length(a) != self.length(b) || first_place(left, right).is_none()
    }
}
