//! The lines of outcomes.
ghost use Rattle.std.specs.Prelude.{◌≡◌, [], ◌∷◌, ◌++◌, OnErr, OnOk, ℕ, List};
ghost use Rattle.ask_client.specs.OutcomeLines.{outcome_line, outcome_text};

use itoa::Buffer;
use sb_calls::print_reply;
use sb_frames::AskOutcome;
use std::alloc::AllocError;

/// Appends the line of an outcome: its request's number, and its words. If memory is refused, nothing
/// changes.
pub(crate) fn push_outcome_line(
    request: u64,
    outcome: AskOutcome,
    lines: &mut Vec<u8>,
) -> Result<(), AllocError>
    ensures line { OnOk result (lines.new.items ≡ lines.old.items ++ (outcome_line request outcome ++ 10 ∷ [])) }
    ensures refused { OnErr result (lines.new.items ≡ lines.old.items) }
{
    let length = lines.len();
    let pushed = push_words(request, outcome, lines);
    if pushed.is_err() {
        lines.truncate(length);
    }
    pushed
}

// Appends the same line. If memory is refused, a part of it may be there.
fn push_words(request: u64, outcome: AskOutcome, lines: &mut Vec<u8>) -> Result<(), AllocError>
    ensures line { OnOk result (lines.new.items ≡ lines.old.items ++ (outcome_line request outcome ++ 10 ∷ [])) }
    ensures behind { (more : List ℕ) × (lines.new.items ≡ lines.old.items ++ more) }
{
    let mut buffer = Buffer::new();
    lines.extend_from_slice(buffer.format(request).as_bytes())?;
    lines.push(b' ')?;
    push_outcome(outcome, lines)?;
    lines.push(b'\n')?;
    Ok(())
}

// Appends the words of an outcome, or nothing.
fn push_outcome(outcome: AskOutcome, lines: &mut Vec<u8>) -> Result<(), AllocError>
    ensures line { OnOk result (lines.new.items ≡ lines.old.items ++ outcome_text outcome) }
    ensures refused { OnErr result (lines.new.items ≡ lines.old.items) }
{
    match outcome {
        AskOutcome::Replied(reply) => {
            lines.extend_from_slice(print_reply(reply.reply()).as_str().as_bytes())
        }
        AskOutcome::Mismatch => lines.extend_from_slice(b"mismatch"),
        AskOutcome::LogFull => lines.extend_from_slice(b"log full"),
    }
}
