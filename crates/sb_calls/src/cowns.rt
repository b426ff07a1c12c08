//! Cowns, and the behaviours that run over them.

mod behaviour;
pub(crate) mod by_cown;
mod cown;
mod effects;
mod performing;

pub use behaviour::{BEHAVIOUR_COWNS, Behaviour, Performs};
pub use by_cown::{read_cowns, write_cowns};
pub use cown::Cown;
pub use effects::PENALTY;
pub use performing::{cowns_of, perform};
