//! The bank on which calls are executed.
use sb_calls::{Call, Reply, apply, resolve};
use sb_rows::{Columns, Directory, read_opening};
use std::alloc::Global;
use std::process::Abort;

/// A bank of three customers.
pub(super) const OPENING: &str = "alice 100.00 50.00\nbob 0.00 20.00\ncarol 10.00 0.00\nbegin\n";

#[derive(Drop)]
pub(super) struct Bank {
    directory: Directory,
    pub(super) columns: Columns,
}

/// A bank with this opening text.
pub(super) fn open_bank(rt: &impl Abort, alloc: Global, text: &str) -> Box<Bank> {
    let opening = read_opening(alloc, text.as_bytes()).expect(rt, "an opening");
    let bank = Bank {
        directory: opening.directory,
        columns: opening.columns,
    };
    Box::new(alloc, bank).expect(rt, "memory for a box")
}

/// Executes a call, and answers its reply.
pub(super) fn execute_call(rt: &impl Abort, bank: &mut Bank, call: &Call) -> Reply {
    assert!(rt; bank.directory.len() == bank.columns.customers());
    apply(&mut bank.columns, resolve(&bank.directory, call))
}
