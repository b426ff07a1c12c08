//! Tests of schedules: their text, and worlds that play them, one event after another.
#![tactic(auto)]

#[cfg(test)]
mod agreement;
#[cfg(test)]
mod breaks;
#[cfg(test)]
mod crashes;
#[cfg(test)]
mod devices;
#[cfg(test)]
mod disorder;
#[cfg(test)]
mod event_lists;
#[cfg(test)]
mod events;
#[cfg(test)]
mod every_restart;
#[cfg(test)]
mod faults;
#[cfg(test)]
mod largest_world;
#[cfg(test)]
mod lists;
#[cfg(test)]
mod network;
#[cfg(test)]
mod notes;
#[cfg(test)]
mod outputs;
#[cfg(test)]
mod room;
#[cfg(test)]
mod schedules;
#[cfg(test)]
mod states;
#[cfg(test)]
mod stories;
#[cfg(test)]
mod texts;
#[cfg(test)]
mod traces;
#[cfg(test)]
mod worlds;
