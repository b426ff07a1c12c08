//! Stores that fail, or don't keep what they say.
use sb_checkpoint::{CheckpointStore, StoreFault};
use std::alloc::Global;

/// How a store behaves.
#[derive(Clone, Copy)]
pub(crate) enum Habit {
    /// It does what it should.
    Honest,
    /// Each put fails with this fault.
    FailsPuts(StoreFault),
    /// Each get fails with this fault.
    FailsGets(StoreFault),
    /// It forgets what was put.
    Forgets,
    /// It gives one byte more than was put.
    Adds,
}

/// A store with a habit. Its model says nothing of what it holds.
#[derive(Drop)]
pub(crate) struct HabitualStore {
    pub(crate) alloc: Global,
    pub(crate) held: Option<Vec<u8>>,
    pub(crate) habit: Habit,
}

impl CheckpointStore for HabitualStore {
    ghost use Rattle.std.specs.Prelude.{None, ◌^◌, ◌-◌};

    ghost model = { record {
      slot = λ store. None;
      IsHonest = λ store. ⊥;
      failures = λ store. 2 ^ 64 - 1;
      acts = λ old step new. Unit {0};
    } };

    fn put(&mut self, bytes: &[u8]) -> Result<(), StoreFault> {
        if let Habit::FailsPuts(fault) = self.habit {
            return Err(fault);
        }
        let Ok(held) = Vec::from_slice(self.alloc, bytes) else {
            return Err(StoreFault::OutOfMemory);
        };
        self.held = match self.habit {
            Habit::Forgets => None,
            _ => Some(held),
        };
        Ok(())
    }

    fn get(&mut self) -> Result<Option<Vec<u8>>, StoreFault> {
        if let Habit::FailsGets(fault) = self.habit {
            return Err(fault);
        }
        let Some(held) = &self.held else {
            return Ok(None);
        };
        let Ok(mut copy) = Vec::from_slice(self.alloc, held) else {
            return Err(StoreFault::OutOfMemory);
        };
        if let Habit::Adds = self.habit
            && copy.push(0).is_err()
        {
            return Err(StoreFault::OutOfMemory);
        }
        Ok(Some(copy))
    }

    fn failures(&self) -> u64 {
        u64::MAX
    }
}
