//! Tests of the bank's runs and of its server: worked inputs, texts of faults, readers, writers and
//! stores that fail.
#![tactic(auto)]

#[cfg(test)]
mod agreements;
#[cfg(test)]
mod bank;
#[cfg(test)]
mod clients;
#[cfg(test)]
mod comparisons;
#[cfg(test)]
mod connections;
#[cfg(test)]
mod devices;
#[cfg(test)]
mod faults;
#[cfg(test)]
mod followers;
#[cfg(test)]
mod gates;
#[cfg(test)]
mod keepers;
#[cfg(test)]
mod kept_logs;
#[cfg(test)]
mod limits;
#[cfg(test)]
mod nodes;
#[cfg(test)]
mod plain;
#[cfg(test)]
mod primaries;
#[cfg(test)]
mod run_devices;
#[cfg(test)]
mod run_faults;
#[cfg(test)]
mod runs;
#[cfg(test)]
mod saves;
#[cfg(test)]
mod session_devices;
#[cfg(test)]
mod sessions;
#[cfg(test)]
mod sockets;
#[cfg(test)]
mod stores;
#[cfg(test)]
mod threads;
#[cfg(test)]
mod wire;
