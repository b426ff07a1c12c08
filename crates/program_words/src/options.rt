//! The values of options among the program's words.
ghost use Rattle.std.specs.Prelude.{◌≡◌, ◌≢◌, ◌++◌, ◌∷◌, IfSome, MatchOption, map, string_bytes};
ghost use Rattle.program_words.specs.Words.{HasIntegerOrDefault, MayHaveInteger, HasInteger, HasValue, has_word};

/// The number that an option has, or the default. `None` if its value isn't a number.
pub(crate) fn parse_count(words: &[String], option: &str, standard: usize) -> Option<usize>
    ensures { IfSome result
        (λ number. HasIntegerOrDefault option.now standard number (map string_bytes words.now)) }
{
    match value(words, option) {
        Some(text) => text.parse::<usize>().ok(),
        None => Some(standard),
    }
}

/// The number that an option has, if it has a value. `None` if that isn't a number.
pub(crate) fn parse_optional(words: &[String], option: &str) -> Option<Option<usize>>
    ensures { IfSome result (λ number. MayHaveInteger option.now number (map string_bytes words.now)) }
{
    match value(words, option) {
        Some(text) => Some(Some(text.parse::<usize>().ok()?)),
        None => Some(None),
    }
}

/// The number that an option has. `None` if its value isn't a number, or it has none.
pub(crate) fn parse_number(words: &[String], option: &str) -> Option<usize>
    ensures { IfSome result (λ number. HasInteger option.now number (map string_bytes words.now)) }
{
    value(words, option)?.parse::<usize>().ok()
}

/// The first value that an option has.
pub(crate) fn value<'a>(words: &'a [String], option: &str) -> Option<&'a str>
    ensures { MatchOption result
        ((text : _) → ¬ (HasValue option.now text (map string_bytes words.entry.now)))
        (λ text. HasValue option.now text.now (map string_bytes words.entry.now)) }
{
    let mut rest = words;
    while let Some((word, others)) = rest.split_first() {
        let word = word.as_str();
        if word == option {
            let (next, _) = others.split_first()?;
            return Some(next.as_str());
        }
        if let Some(value) = after_equals(word, option) {
            return Some(value);
        }
        rest = others;
    }
    None
}

/// Whether a word is among these.
pub(crate) fn has_word(words: &[String], word: &str) -> bool
    ensures { result ≡ has_word word.now (map string_bytes words.now) }
{
    let mut rest = words;
    while let Some((first, others)) = rest.split_first() {
        if first.as_str() == word {
            return true;
        }
        rest = others;
    }
    false
}

// What follows the option and `=`.
fn after_equals<'a>(word: &'a str, option: &str) -> Option<&'a str>
    ensures { MatchOption result
        ((text : _) → word.entry.now ≢ option.now ++ (61 ∷ text))
        (λ text. word.entry.now ≡ option.now ++ (61 ∷ text.now)) }
{
    word.strip_prefix(option)?.strip_prefix('=')
}
