//! Whether a result is that of a behaviour that is out.
ghost use Rattle.std.specs.Prelude.{◌≡◌, ◌≢◌, ◌<◌, ◌+◌, ◌↔◌, ℕ, Some, suc, length, slice_get, IsTrue, MatchOption};
ghost use Rattle.sb_calls.specs.Cowns.{AreBelow, contents_of, read_cowns};

use crate::job::Done;
use crate::state::State;
use sb_amount::Cents;
use sb_calls::{Behaviour, read_cowns};
use sb_rows::Columns;

// The position in the log of a number, if it has one.
pub(crate) fn position_of(base: u64, log_length: usize, number: u64) -> Option<u64>
    ensures { MatchOption result
        ((position : ℕ) → position < log_length → number ≢ suc (base + position))
        (λ position. (position < log_length) × (number ≡ suc (base + position))) }
{
    if number <= base {
        return None;
    }
    let position = number - base - 1;
    if position < log_length as u64 {
        Some(position)
    } else {
        None
    }
}

// Whether a state is out. For the prover alone: the test gets its clause here.
fn is_out(state: State) -> bool
    ensures { IsTrue result ↔ (state ≡ State.Out) }
{
    matches!(state, State::Out)
}

// Whether two behaviours are equal. For the prover alone: here `==` gets its clause from the law
// `exact`.
fn same_behaviour<B: Behaviour>(a: B, b: B) -> bool
    ensures { IsTrue result ↔ (a ≡ b) }
{
    a == b
}

// Whether these values are equal. For the prover alone: here `==` of slices gets its clause.
fn same_values(a: &[Cents], b: &[Cents]) -> bool
    ensures { IsTrue result ↔ (a.now ≡ b.now) }
{
    a == b
}

// Whether the behaviour at a position is out, and the result is of this behaviour, on what its
// cowns contain.
#[inline(always)]
pub(crate) fn is_out_at<B: Behaviour>(
    columns: &Columns,
    log: &Vec<B>,
    states: &Vec<State>,
    position: u64,
    done: &Done<B>,
) -> bool
    requires position { position < length log.now.items }
    requires beside { length log.now.items ≡ length states.now.items }
    requires cowns { (k : ℕ) (behaviour : B) → slice_get log.now.items k ≡ Some behaviour →
        AreBelow (length (contents_of columns.now)) (B.touches behaviour) }
    ensures { IsTrue result ↔ ((slice_get states.now.items position ≡ Some State.Out) ×
        (slice_get log.now.items position ≡ Some done.now.behaviour) ×
        (done.now.inputs ≡ read_cowns (contents_of columns.now) (B.touches done.now.behaviour))) }
{
    let behaviour = log[position as usize];
    if !is_out(states[position as usize]) || !same_behaviour(behaviour, done.behaviour()) {
        return false;
    }
    let inputs = read_cowns(columns, behaviour.cowns().as_slice());
    same_values(done.inputs(), inputs.as_slice())
}
