//! Tests of logs on disk, of the asks in them, and of what a crash leaves.
#![tactic(auto)]

#[cfg(test)]
mod ask_logs;
#[cfg(test)]
mod crashes;
#[cfg(test)]
mod memory_logs;
#[cfg(test)]
mod records;
