//! Crews that execute ops, in place or in threads, and the draining of a board by a crew.
#![tactic(auto)]

mod crew;
mod crew_fault;
mod draining;
mod gate;
mod inline_crew;
mod laws;
mod threads;
mod traced;
mod waiting;

pub use crew::{Crew, CrewGone};
pub use crew_fault::CrewFault;
pub use draining::drain;
pub use gate::{Gate, OpenGate};
pub use inline_crew::InlineCrew;
pub use laws::notices_of_exchanges;
pub use threads::{BenchCrew, with_crew};
pub use traced::{Notice, Traced};
