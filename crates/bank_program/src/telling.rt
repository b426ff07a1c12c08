//! How a fault is told on standard error.
ghost use Rattle.std.specs.Prelude.{◌≡◌};
ghost use Rattle.bank_program.specs.Faults.{exit_status};

use crate::fault::ProgramFault;
use crate::report::told;
use crate::trouble::Trouble;
use sb_text::write_whole;

/// Tells a fault on standard error, unless it was told before, and answers the exit status. If a
/// device failed, the next line says which, in the system's words; and if a line of the input is at
/// fault, what it is like. If what failed is an output whose reader closed it, nothing is told: whoever
/// did so wants no more of it.
pub fn tell(rt: &HostRuntime, fault: ProgramFault, trouble: &Trouble<'_>) -> u8
    ensures { result ≡ exit_status fault }
{
    let report = told(fault);
    // If standard error fails too, the status still says the fault.
    match trouble.cause() {
        Some(cause) if fault.is_of_device() => {
            if !cause.is_closed_output() {
                let _ = eprintln!(rt; "{report}\n{cause}");
            }
        }
        _ => {
            if !fault.is_told() {
                let _ = eprintln!(rt; "{report}");
            }
        }
    }
    if let Some(line) = fault.line() {
        tell_line(rt, line, trouble);
    }
    report.status
}

// Tells what the input's line of this number is like.
fn tell_line(rt: &HostRuntime, number: usize, trouble: &Trouble<'_>) {
    if let Some(note) = trouble.line_note(rt.alloc(), number) {
        let mut note = note;
        if note.push(b'\n').is_ok() {
            let _ = write_whole(&mut rt.stderr(), &note);
        }
    }
}
