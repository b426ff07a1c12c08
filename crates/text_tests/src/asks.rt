//! Clients of a served bank: worked inputs, servers that fail, and what is asked again.
mod answers;
mod faults;
mod servers;
