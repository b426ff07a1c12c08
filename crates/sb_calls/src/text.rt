//! The text of calls and of replies.

mod asking;
mod fault;
mod number;
mod printing;
mod reading;
mod verb;

pub use asking::{push_ask, read_ask};
pub use fault::CallFault;
pub use number::read_number;
pub use printing::{print_reply, write_reply};
pub use reading::{read_call, read_call_words};
