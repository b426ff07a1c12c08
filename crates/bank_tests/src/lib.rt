//! Tests of money, of a bank's customers, of their calls, and of audits: inputs worked by hand,
//! inputs at limits, and what no clause says.
#![tactic(auto)]

#[cfg(test)]
mod amounts;
#[cfg(test)]
mod audits;
#[cfg(test)]
mod calls;
#[cfg(test)]
mod fixtures;
#[cfg(test)]
mod rows;
#[cfg(test)]
mod words;
