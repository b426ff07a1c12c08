//! States that were sent to a replica, as bytes.
ghost use Rattle.std.specs.Prelude.{◌≡◌, [], ◌∷◌, ◌++◌, length, map, IfOk, OnErr};
ghost use Rattle.std.specs.Option.{option_copied};
ghost use Rattle.schedule_player.specs.OneBased.{nth_item};

use crate::node::sent_frames::item_at;
use std::alloc::{AllocError, Global};
use std::marker::Model;

/// All states that were ever sent to a replica, in order: the bytes of the checkpoints as they were
/// sent.
#[derive(Drop)]
pub(crate) struct States {
    sent: Vec<Vec<u8>>,
}

impl Model for States {
    ghost use Rattle.std.specs.Prelude.{ℕ, List, map};

    ghost Value = { List (List ℕ) };

    ghost view = { λ s. map (λ bytes. bytes.items) s.sent.items };
}

impl States {
    /// No states.
    pub fn new(alloc: Global) -> States
        ensures { result ≡ [] }
    {
        States {
            sent: Vec::new(alloc),
        }
    }

    /// Appends a state, and answers its position, counted from 1.
    pub fn add(&mut self, bytes: Vec<u8>) -> Result<u64, AllocError>
        ensures sent { IfOk result (λ position. self.new ≡ self.old ++ bytes.items ∷ []) }
        ensures position { IfOk result (λ position. position ≡ length self.new) }
        ensures err { OnErr result (self.new ≡ self.old) }
    {
        self.sent.push(bytes)?;
        Ok(self.sent.len() as u64)
    }

    /// The bytes of the state at a position, counted from 1.
    pub fn get(&self, position: u32) -> Option<&[u8]>
        ensures { option_copied result ≡ nth_item self.now position }
    {
        let bytes = item_at(&self.sent, position)?;
        Some(bytes.as_slice())
    }
}
