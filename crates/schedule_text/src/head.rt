//! The first line of a schedule: how many replicas there are, and how many workers each has.
ghost use Rattle.std.specs.Prelude.{◌≡◌, ℕ, ◌≤◌, ◌<◌, Ok, Some, None, IfOk, IfSome, MatchOption, MatchResult};
ghost use Rattle.sb_calls.specs.Ask as asks;
ghost use Rattle.sb_rows.specs.Text.{lines, words, after_line};
ghost use Rattle.schedule_text.specs.inner.Head.{IsHead};
ghost use Rattle.schedule_text.specs.inner.LineFaults.{BlamesLine};
ghost use Rattle.schedule_text.specs.ScheduleText.{head_of_lines, head_of_words, head_with};

use crate::fault::{ScheduleLineFault, TextFault};
use sb_calls::{REPLICAS, WORKERS, read_number};
use sb_rows::{Words, next_line, word_is};

// The greatest number of replicas.
const MOST_NODES: u8 = REPLICAS as u8;

// The greatest number of workers of each.
const MOST_WORKERS: u8 = WORKERS as u8;

// The fault of a text whose first line isn't a head, or that has no line.
const BAD_HEAD: TextFault = TextFault::Line {
    line: 1,
    fault: ScheduleLineFault::BadHead,
};

// The numbers of replicas, and of workers of each, in a text's first line, and what follows that
// line.
#[tactic(auto, unfolding(crate::specs::ScheduleText::head_of))]
pub(crate) fn read_head(text: &[u8]) -> Result<(u8, u8, &[u8]), TextFault>
    ensures exact { MatchResult result
        (λ head. head_of_lines (lines text.now) ≡ Ok (head.0, head.1))
        (λ fault. BlamesLine fault (head_of_lines (lines text.now))) }
    ensures within { IfOk result (λ head. IsHead head.0 head.1) }
    ensures after { IfOk result (λ head. head.2.now ≡ after_line text.now) }
{
    let Some((line, rest)) = next_line(text) else {
        return Err(BAD_HEAD);
    };
    let Some((nodes, workers)) = number_words(line) else {
        return Err(BAD_HEAD);
    };
    let (Some(nodes), Some(workers)) = (
        count_of(nodes, MOST_NODES),
        count_of(workers, MOST_WORKERS),
    ) else {
        return Err(BAD_HEAD);
    };
    Ok((nodes, workers, rest))
}

// The words for the two numbers of a line that is otherwise spelled as a head.
fn number_words(line: &[u8]) -> Option<(&[u8], &[u8])>
    ensures { MatchOption result
        (head_of_words (words line.now) ≡ None)
        (λ two. head_of_words (words line.now)
        ≡ head_with (asks.read_number two.0.now) (asks.read_number two.1.now)) }
{
    let mut words = Words::of(line);
    let (Some(first), Some(nodes), Some(third), Ok(workers)) = (
        words.next(),
        words.next(),
        words.next(),
        words.last(),
    ) else {
        return None;
    };
    if !word_is(first, b"nodes") || !word_is(third, b"workers") {
        return None;
    }
    Some((nodes, workers))
}

// The number that a word spells, if it is from 1 to the most.
fn count_of(word: &[u8], most: u8) -> Option<u8>
    ensures { MatchOption result
        ((number : ℕ) → asks.read_number word.now ≡ Some number → 1 ≤ number → most < number)
        (λ count. (asks.read_number word.now ≡ Some count) × (1 ≤ count) × (count ≤ most)) }
{
    match read_number(word) {
        Some(number) if 1 <= number && number <= u32::from(most) => Some(number as u8),
        _ => None,
    }
}
