//! What the programs do for a bank: runs and sessions, whose outputs are stated functions of their
//! inputs.
#![tactic(auto)]

mod answers;
mod fault;
mod followers;
mod input;
mod laws;
mod node0;
mod run;
mod session;

pub use answers::{push_answers, push_output};
pub use fault::{InputFault, RunFault};
pub use followers::{
    COMPARED_ENTRIES, Followers, ReadyFollowers, StrayReason, agree, difference, with_followers,
};
pub use input::{LogNumber, PreparedInput, Standing, ask_lines, prepare};
pub use laws::{answers_are_final, client_bounds, comparisons_add_up, limits, told_outcomes_stand};
pub use node0::{AskCounts, Duty, Primary, SaveFault, WorkerCount, carry_out_log, with_team};
pub use run::run_text;
pub use session::{
    Arrival, Arrivals, ClientLimits, Clients, PendingAsk, READ_BYTES, SessionFault, TurnFault,
    serve_session,
};
