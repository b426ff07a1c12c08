//! The words after `checkpoint`.
ghost use Rattle.std.specs.Prelude.{◌≡◌, ◌∷◌, [], IfSome, map, string_bytes};
ghost use Rattle.program_words.specs.Words.{AreOptionsOf, GivesCheckpoint};

/// A checkpoint, and what is printed of it.
#[derive(Clone, Copy, Debug, PartialEq, Eq)]
pub struct CheckpointWords<'a> {
    /// The file where it stands.
    pub file: &'a str,
    /// What is printed of it.
    pub view: CheckpointView<'a>,
}

/// What is printed of a checkpoint.
#[derive(Clone, Copy, Debug, PartialEq, Eq)]
pub enum CheckpointView<'a> {
    /// Its length, its totals, and the balances by their places in the opening.
    Balances,
    /// Its rows by the names of the opening in this file, as an opening.
    Opening(&'a str),
    /// Its length alone, if it is whole.
    Check,
}

/// What is printed of a checkpoint, by the words after `checkpoint`: its file, and an option before or
/// behind it, or none.
pub(super) fn checkpoint_words<'a>(options: &'a [String]) -> Option<CheckpointWords<'a>>
    ensures { IfSome result (λ words. GivesCheckpoint words (map string_bytes options.entry.now)) }
{
    let (file, rest) = options.split_first()?;
    if let Some(view) = view_of(rest) {
        return Some(checkpoint_of(file, view));
    }
    let (file, rest) = options.split_last()?;
    Some(checkpoint_of(file, view_of(rest)?))
}

// These words.
fn checkpoint_of<'a>(file: &'a String, view: CheckpointView<'a>) -> CheckpointWords<'a>
    ensures file { result.file.now ≡ string_bytes file.entry.now }
    ensures view { result.view ≡ view.entry }
{
    CheckpointWords {
        file: file.as_str(),
        view,
    }
}

// What these words beside a file have printed.
fn view_of<'a>(options: &'a [String]) -> Option<CheckpointView<'a>>
    ensures { IfSome result (λ view. AreOptionsOf view (map string_bytes options.entry.now)) }
{
    match options {
        [] => Some(CheckpointView::Balances),
        [option] => view_of_one(option),
        [option, opening] => view_of_two(option, opening),
        _ => None,
    }
}

// What a word alone has printed.
fn view_of_one<'a>(option: &'a String) -> Option<CheckpointView<'a>>
    ensures { IfSome result (λ view. AreOptionsOf view (string_bytes option.entry.now ∷ [])) }
{
    if option.as_str() == "--check" {
        return Some(CheckpointView::Check);
    }
    let opening = option.as_str().strip_prefix("--opening=")?;
    Some(CheckpointView::Opening(opening))
}

// What an option and its value have printed.
fn view_of_two<'a>(option: &String, opening: &'a String) -> Option<CheckpointView<'a>>
    ensures { IfSome result
        (λ view. AreOptionsOf view (string_bytes option.now ∷ string_bytes opening.entry.now ∷ [])) }
{
    if option.as_str() == "--opening" {
        Some(CheckpointView::Opening(opening.as_str()))
    } else {
        None
    }
}
