//! Tests of texts: whole inputs and outputs, checkpoints, and what a client asks and prints.
#![tactic(auto)]

#[cfg(test)]
mod asks;
#[cfg(test)]
mod checkpoints;
#[cfg(test)]
mod inputs;
