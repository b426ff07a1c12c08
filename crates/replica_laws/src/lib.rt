//! From the reference machine to the threads of a server: laws of followers and of node 0.
#![tactic(auto)]

mod laws;

pub use laws::{
    asks_append, followers_move, followers_open, keeping_syncs, messages_are_events, messages_move,
    node0_events, node0_moves, node0_opens, node0_stays,
};
