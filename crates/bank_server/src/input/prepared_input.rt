//! Reading an input, and numbering its asks.
ghost use Rattle.std.specs.Prelude.{MatchResult};
ghost use Rattle.bank_server.specs.Faults.{IsTextFaultOf};
ghost use Rattle.bank_server.specs.Output.{output_of};
ghost use Rattle.bank_server.specs.PreparedInput.{IsPreparedInputOf};

use super::asking::{Standing, ask_lines, usual_lines};
use crate::fault::RunFault;
use crate::node0::Primary;
use sb_checkpoint::MemoryStore;
use sb_rows::read_opening;
use std::alloc::Global;

/// An input that is ready to be executed.
#[derive(Drop)]
pub struct PreparedInput {
    /// Its log, and node 0 at its opening.
    pub primary: Primary<MemoryStore>,
    /// The standing of each ask in the log, in order.
    pub standings: Vec<Standing>,
}

/// Reads an input, and asks for each of its asking lines.
///
/// Fails with [`RunFault::Input`] at the first line at fault, and with [`RunFault::OutOfMemory`] if
/// memory is refused.
pub fn prepare(alloc: Global, input: &[u8]) -> Result<PreparedInput, RunFault>
    ensures { MatchResult result
        (λ prepared. IsPreparedInputOf input.now prepared)
        (λ fault. IsTextFaultOf fault (output_of input.now)) }
{
    let opening = read_opening(alloc, input)?;
    let first_line = opening.directory.len() + 2;
    let lines = &input[opening.consumed..];
    let store = MemoryStore::new(alloc);
    let mut primary = Primary::with_capacity(alloc, opening, store, usual_lines(lines.len()))?;
    let standings = ask_lines(alloc, lines, first_line, &mut primary)?;
    Ok(PreparedInput { primary, standings })
}
