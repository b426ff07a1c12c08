//! An opening text, with nothing after it.
ghost use Rattle.std.specs.Prelude.{◌≡◌, ◌+◌, length, MatchResult};
ghost use Rattle.bank_server.specs.Faults.{IsTextFaultOf};
ghost use Rattle.bank_service.specs.Opening.{IsOpeningOf, whole_opening_of};

use bank_server::{InputFault, RunFault};
use sb_rows::{LineFault, Opening, read_opening};
use std::alloc::Global;

/// Reads an opening text that ends with its line `begin`.
///
/// Fails with [`RunFault::Input`] at the first line at fault, which may be the line after `begin`,
/// and with [`RunFault::OutOfMemory`] if memory is refused.
pub fn whole_opening(alloc: Global, input: &[u8]) -> Result<Opening, RunFault>
    ensures whole { MatchResult result
        (IsOpeningOf (whole_opening_of input.now))
        (λ fault. IsTextFaultOf fault (whole_opening_of input.now)) }
{
    let opening = read_opening(alloc, input)?;
    if opening.consumed < input.len() {
        Err(fault_behind(&opening))
    } else {
        Ok(opening)
    }
}

// The fault of the line after an opening, which has one for each customer and one more.
fn fault_behind(opening: &Opening) -> RunFault
    ensures { result ≡ RunFault.Input (length opening.now.directory + 2) (InputFault.Opening LineFault.BadLine) }
{
    RunFault::Input {
        line: opening.directory.len() + 2,
        fault: InputFault::Opening(LineFault::BadLine),
    }
}
