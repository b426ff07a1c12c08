//! Names, openings and balances.
mod block_edges;
mod columns;
mod directories;
mod openings;
