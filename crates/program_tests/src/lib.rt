//! Tests of the program as a library: its words, how faults are reported, and banks that are
//! served.
#![tactic(auto)]

#[cfg(test)]
mod answers;
#[cfg(test)]
mod clients;
#[cfg(test)]
mod comparisons;
#[cfg(test)]
mod devices;
#[cfg(test)]
mod hostile;
#[cfg(test)]
mod known;
#[cfg(test)]
mod lines;
#[cfg(test)]
mod logs;
#[cfg(test)]
mod notes;
#[cfg(test)]
mod openings;
#[cfg(test)]
mod programs;
#[cfg(test)]
mod queues;
#[cfg(test)]
mod reports;
#[cfg(test)]
mod served;
#[cfg(test)]
mod serving;
#[cfg(test)]
mod sockets;
#[cfg(test)]
mod words;
