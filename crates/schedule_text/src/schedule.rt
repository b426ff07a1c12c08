//! The meaning of the text of a schedule.
ghost use Rattle.sb_rows.specs.Rows.{SameCustomers};
ghost use Rattle.schedule_text.specs.inner.Head.{IsHead};

use crate::events::Events;
use sb_rows::{Columns, Directory};

/// The meaning of the text of a schedule.
#[derive(Drop)]
pub struct Schedule {
    /// How many replicas there are, from 1 to 16.
    pub nodes: u8,
    /// How many workers each has, from 1 to 16.
    pub workers: u8,
    /// The customers' names.
    pub directory: Directory,
    /// Their balances at the opening.
    pub columns: Columns,
    /// The events in order.
    pub events: Events,
    ghost same_customers: { SameCustomers directory columns },
    ghost head: { IsHead nodes workers },
}
