//! How a text is split into lines, and a line into words.
ghost use Rattle.std.specs.Prelude.{◌≡◌, ◌<◌, [], ◌∷◌, length, MatchOption, IfSome};
ghost use Rattle.std.specs.Option.{option_map};
ghost use Rattle.sb_rows.specs.inner.Spaces.{AreSpacesOf};
ghost use Rattle.sb_rows.specs.Text.{lines, words, after_line};
ghost use Rattle.sb_rows.specs.inner.WordsOfRest.{words_of_rest};

use memchr::memchr;

/// The first line of a text and the text after it, or `None` at the end of the text.
///
/// A text is split into lines at each line feed. A last piece without one is a line unless it is
/// empty.
#[inline]
pub fn next_line(text: &[u8]) -> Option<(&[u8], &[u8])>
    ensures line { MatchOption result (lines text.now ≡ []) (λ next. lines text.now ≡ next.0.now ∷ lines next.1.now) }
    ensures after { IfSome result (λ next. next.1.now ≡ after_line text.now) }
    ensures shorter { IfSome result (λ next. length next.1.now < length text.now) }
{
    match memchr(b'\n', text) {
        Some(end) => Some((&text[..end], &text[end + 1..])),
        None if text.is_empty() => None,
        None => Some((text, &[])),
    }
}

// The first word of a line, and what follows the space after it, if there is one.
#[inline]
pub(crate) fn next_word(line: &[u8]) -> (&[u8], Option<&[u8]>)
    ensures { words line.now ≡ result.0.now ∷ words_of_rest (option_map (λ rest. rest.now) result.1) }
{
    match memchr(b' ', line) {
        Some(end) => (&line[..end], Some(&line[end + 1..])),
        None => (line, None),
    }
}

// The same for a line whose spaces are known, together with the spaces of what follows.
#[inline(always)]
pub(crate) fn next_word_by_mask(line: &[u8], spaces: u64) -> (&[u8], Option<&[u8]>, u64)
    requires { AreSpacesOf line.now spaces }
    ensures words { words line.now ≡ result.0.now ∷ words_of_rest (option_map (λ rest. rest.now) result.1) }
    ensures spaces { IfSome result.1 (λ rest. AreSpacesOf rest.now result.2) }
{
    if spaces == 0 {
        return (line, None, 0);
    }
    let end = spaces.trailing_zeros();
    let rest = &line[end as usize + 1..];
    (&line[..end as usize], Some(rest), spaces >> end >> 1)
}
