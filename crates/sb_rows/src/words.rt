//! The words of a line, taken from the left.
ghost use Rattle.std.specs.Prelude.{◌≡◌, ◌≢◌, ℕ, List, [], ◌∷◌, MatchOption, MatchResult};
ghost use Rattle.std.specs.Str.{bytes_eq};
ghost use Rattle.sb_rows.specs.Text.{words};

use crate::spaces::{MASK_BYTES, spaces_of};
use crate::text::{next_word, next_word_by_mask};
use std::marker::Model;
use thiserror::Error;

/// A requested word isn't there, or more words are left than were requested.
#[derive(Clone, Copy, Debug, PartialEq, Eq, Error)]
#[error("wrong words")]
pub struct WrongWords;

/// Whether a word is spelled so.
#[inline(always)]
pub fn word_is(word: &[u8], text: &[u8]) -> bool
    ensures { result ≡ bytes_eq word.now text.now }
{
    // The length is asked first, so that the rest is a comparison of a known length.
    word.len() == text.len() && word.starts_with(text)
}

/// The words of a line that aren't taken yet.
///
/// A line is split into words at each single space, so two spaces make an empty word.
#[derive(Drop)]
pub struct Words<'a> {
    // The text whose words these are. `None` means that no word is left, since each text has at
    // least one.
    text: Option<&'a [u8]>,
    // The spaces of the text, or `None` if it is too long for a mask.
    spaces: Option<u64>,
}

impl<'a> Model for Words<'a> {
    ghost use Rattle.std.specs.Prelude.{ℕ, List};
    ghost use Rattle.std.specs.Option.{option_map};
    ghost use Rattle.sb_rows.specs.inner.Spaces.{AreSpacesOfRest};
    ghost use Rattle.sb_rows.specs.inner.WordsOfRest.{words_of_rest};

    ghost Value = { List (List ℕ) };

    ghost view = { λ w. words_of_rest (option_map (λ text. text.now) w.text) };

    ghost invariant = { λ w. AreSpacesOfRest (option_map (λ text. text.now) w.text) w.spaces };
}

impl<'a> Words<'a> {
    /// All words of a line.
    #[inline]
    pub fn of(line: &'a [u8]) -> Words<'a>
        ensures { result ≡ words line.entry.now }
    {
        let spaces = if line.len() <= MASK_BYTES {
            Some(spaces_of(line))
        } else {
            None
        };
        Words {
            text: Some(line),
            spaces,
        }
    }

    /// Takes the next word, or returns `None` if none is left.
    #[inline]
    pub fn next(&mut self) -> Option<&'a [u8]>
        ensures { MatchOption result
            ((self.old ≡ []) × (self.new ≡ []))
            (λ word. self.old ≡ word.now ∷ self.new) }
    {
        let text = self.text?;
        let (word, rest) = match self.spaces {
            Some(spaces) => {
                let (word, rest, left) = next_word_by_mask(text, spaces);
                self.spaces = Some(left);
                (word, rest)
            }
            None => next_word(text),
        };
        self.text = rest;
        Some(word)
    }

    /// Takes the next word. Fails if there is none; then none is left either.
    #[inline]
    pub fn word(&mut self) -> Result<&'a [u8], WrongWords>
        ensures { MatchResult result
            (λ word. self.old ≡ word.now ∷ self.new)
            (λ _. (self.old ≡ []) × (self.new ≡ [])) }
    {
        self.next().ok_or(WrongWords)
    }

    /// The one word that is left. Fails if there is none, or more than one.
    #[inline]
    pub fn last(mut self) -> Result<&'a [u8], WrongWords>
        ensures { MatchResult result
            (λ word. self.entry ≡ word.now ∷ [])
            (λ _. (word : List ℕ) → self.entry ≢ word ∷ []) }
    {
        let (Some(word), None) = (self.next(), self.next()) else {
            return Err(WrongWords);
        };
        Ok(word)
    }
}
