//! Tests of a replica's parts: checkpoints, their stores, and the replica itself.
#![tactic(auto)]

#[cfg(test)]
mod bank;
#[cfg(test)]
mod checkpoints;
#[cfg(test)]
mod replicas;
#[cfg(test)]
mod steps;
#[cfg(test)]
mod stores;
#[cfg(test)]
mod words;
