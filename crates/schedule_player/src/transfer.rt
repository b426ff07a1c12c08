//! A replica gets its state from another one.

mod node;
pub(crate) mod sent_states;
mod world;
