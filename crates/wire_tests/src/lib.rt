//! Tests of the wire: its frames, their streams, and the sequencer that numbers asks.
#![tactic(auto)]

#[cfg(test)]
mod entries;
#[cfg(test)]
mod fixtures;
#[cfg(test)]
mod frames;
#[cfg(test)]
mod sequencer;
#[cfg(test)]
mod streams;
#[cfg(test)]
mod words;
