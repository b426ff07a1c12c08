//! The calls of SmallBank: their spelling, their effects and their replies.
#![tactic(auto)]

mod applying;
mod ask;
mod call;
mod cowns;
mod laws;
mod net_change;
mod nodes;
mod op;
mod reply;
mod text;
mod two_places;
mod wire_reply;

pub use applying::apply;
pub use ask::{AskLine, Key};
pub use call::{Call, LOG_CALLS};
pub use cowns::{
    BEHAVIOUR_COWNS, Behaviour, Cown, PENALTY, Performs, cowns_of, perform, read_cowns, write_cowns,
};
pub use laws::{
    calls_are_local, conflicts_by_name, effects_by_procedure, limits, logs_by_cowns,
    ops_declare_touched, replies_are_short, replies_have_one_code, replies_have_spellings,
    replies_one_by_one, total_by_net,
};
pub use net_change::net;
pub use nodes::{REPLICAS, WORKERS};
pub use op::{Op, resolve};
pub use reply::Reply;
pub use text::{
    CallFault, print_reply, push_ask, read_ask, read_call, read_call_words, read_number,
    write_reply,
};
pub use two_places::TwoPlaces;
pub use wire_reply::{TOTAL_LIMIT, WireReply};
