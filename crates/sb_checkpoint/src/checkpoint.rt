//! A checkpoint in memory.
ghost use Rattle.std.specs.Prelude.{◌≡◌};

use sb_calls::Reply;
use sb_rows::Columns;
use std::marker::Model;

/// The state of an idle replica: the balances of all customers, and the replies to the calls so
/// far.
#[derive(Debug, Drop)]
pub struct Checkpoint {
    columns: Columns,
    replies: Vec<Reply>,
}

impl Model for Checkpoint {
    ghost use Rattle.sb_checkpoint.specs.Checkpoint.{CheckpointOf};

    ghost Value = { CheckpointOf };

    ghost view = { λ c. record { columns = c.columns; replies = c.replies.items } };
}

impl Checkpoint {
    /// A checkpoint with these balances and replies.
    pub(crate) fn of(columns: Columns, replies: Vec<Reply>) -> Checkpoint
        ensures { result ≡ record { columns = columns; replies = replies.items } }
    {
        Checkpoint { columns, replies }
    }

    /// The balances of all customers.
    pub fn columns(&self) -> &Columns
        ensures { result.now ≡ self.now.columns }
    {
        &self.columns
    }

    /// The replies to the calls so far, in the order of their numbers.
    pub fn replies(&self) -> &[Reply]
        ensures { result.now ≡ self.now.replies }
    {
        &self.replies
    }

    /// Its balances and its replies.
    pub fn into_parts(self) -> (Columns, Vec<Reply>)
        ensures columns { result.0 ≡ self.columns }
        ensures replies { result.1.items ≡ self.replies }
    {
        (self.columns, self.replies)
    }
}
