//! A bank that is served: found in its log, or opened; its clients; and what it prints.
#![tactic(auto)]

mod followers;
mod found_bank;
mod list_fault;
mod log_listing;
mod opened_bank;
mod opening;
mod printing;
mod serve_fault;
mod server;
mod serving;
mod session_end;

pub use found_bank::{FoundBank, find_bank};
pub use list_fault::ListFault;
pub use log_listing::list_log;
pub use opened_bank::open_on_file;
pub use opening::whole_opening;
pub use serve_fault::ServeFault;
pub use server::Server;
pub use serving::{serve, serve_beside};
