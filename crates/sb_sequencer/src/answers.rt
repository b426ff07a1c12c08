//! The answers of the log's calls, by index, in room that was made before.
ghost use Rattle.std.specs.Prelude.{◌≡◌, ◌+◌, ◌<◌, ◌≤◌, OnOk, length, slice_get, vec_capacity};
ghost use Rattle.std.specs.Option.{option_flatten};
ghost use Rattle.sb_sequencer.specs.inner.StoredAnswers.{ComparesAnswers, StoresAnswer};
ghost use Rattle.sb_sequencer.specs.inner.Padding.{padded_answers};

use crate::note::AnswerNote;
use sb_calls::Reply;
use std::alloc::AllocError;

// Makes room for this many answers. Nothing is written there, so room without an answer
// takes no memory of the machine.
pub(crate) fn make_room(answers: &mut Vec<Option<Reply>>, slots: usize) -> Result<(), AllocError>
    requires { length answers.old.items ≤ slots }
    ensures items { answers.new.items ≡ answers.old.items }
    ensures room { OnOk result (slots ≤ vec_capacity answers.new) }
    ensures never_less { vec_capacity answers.old ≤ vec_capacity answers.new }
{
    answers.reserve(slots - answers.len())
}

// Fills up to this many slots, without an answer.
fn fill(answers: &mut Vec<Option<Reply>>, slots: usize)
    requires limit { length answers.old.items ≤ slots }
    requires room { slots ≤ vec_capacity answers.old }
    ensures items { answers.new.items ≡ padded_answers slots answers.old.items }
    ensures capacity { vec_capacity answers.new ≡ vec_capacity answers.old }
{
    for _ in answers.len()..slots {
        answers.push_reserved(None);
    }
}

// The note on a further answer, by the first.
fn compare_answers(first: Reply, further: Reply) -> AnswerNote
    ensures { ComparesAnswers first further result }
{
    if first == further {
        AnswerNote::Repeat
    } else {
        AnswerNote::Odd
    }
}

// Stores an answer in a slot, unless there is one already.
pub(crate) fn store_answer(
    answers: &mut Vec<Option<Reply>>,
    slot: usize,
    reply: Reply,
) -> AnswerNote
    requires { slot < vec_capacity answers.old }
    ensures items { StoresAnswer (padded_answers (slot + 1) answers.old.items) slot reply result answers.new.items }
    ensures capacity { vec_capacity answers.new ≡ vec_capacity answers.old }
{
    if answers.len() <= slot {
        fill(answers, slot);
        answers.push_reserved(Some(reply));
        return AnswerNote::Kept;
    }
    match answers[slot] {
        None => {
            answers[slot] = Some(reply);
            AnswerNote::Kept
        }
        Some(first) => compare_answers(first, reply),
    }
}

// The answer in a slot, if there is one.
pub(crate) fn stored_answer(answers: &[Option<Reply>], slot: usize) -> Option<Reply>
    ensures { result ≡ option_flatten (slice_get answers.now slot) }
{
    answers.get(slot).copied().flatten()
}
