//! Tests of what runs a log: the queues of cowns, the board, the bench with its jobs, and the crews
//! that execute them.
#![tactic(auto)]

#[cfg(test)]
mod bank;
#[cfg(test)]
mod crews;
#[cfg(test)]
mod cuts;
#[cfg(test)]
mod drains;
#[cfg(test)]
mod faults;
#[cfg(test)]
mod gates;
#[cfg(test)]
mod limits;
#[cfg(test)]
mod linking;
#[cfg(test)]
mod looks;
#[cfg(test)]
mod pair;
#[cfg(test)]
mod picks;
#[cfg(test)]
mod queues;
#[cfg(test)]
mod readiness;
#[cfg(test)]
mod sleeps;
#[cfg(test)]
mod threads;
#[cfg(test)]
mod traces;
#[cfg(test)]
mod two_threads;
#[cfg(test)]
mod workers;
