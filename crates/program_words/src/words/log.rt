//! The words after `log`.
ghost use Rattle.std.specs.Prelude.{◌≡◌, ◌∷◌, [], IfSome, map, string_bytes};
ghost use Rattle.program_words.specs.Words.{GivesLog, flags_of};

use crate::listing::Listing;

/// A log, and what is done with it.
#[derive(Clone, Copy, Debug, PartialEq, Eq)]
pub struct LogWords<'a> {
    /// The folder where the log is kept.
    pub folder: &'a str,
    /// What is done with it.
    pub action: LogAction,
}

/// What is done with a log.
#[derive(Clone, Copy, Debug, PartialEq, Eq)]
pub enum LogAction {
    /// It is listed.
    List(Listing),
    /// What follows its last whole record is moved to a file beside it.
    Cut,
}

/// What is done with a log, by the words after `log`: its folder, and a flag before or behind it, or
/// none.
pub(super) fn log_words<'a>(options: &'a [String]) -> Option<LogWords<'a>>
    ensures { IfSome result (λ log. GivesLog log (map string_bytes options.entry.now)) }
{
    match options {
        [folder] => Some(LogWords {
            folder: folder.as_str(),
            action: LogAction::List(Listing::Asks),
        }),
        [first, second] => match (action_of(first), action_of(second)) {
            (None, Some(action)) => Some(LogWords {
                folder: first.as_str(),
                action,
            }),
            (Some(action), None) => Some(LogWords {
                folder: second.as_str(),
                action,
            }),
            _ => None,
        },
        _ => None,
    }
}

// What a flag has done with a log, if it is one.
fn action_of(word: &String) -> Option<LogAction>
    ensures { IfSome result (λ action. flags_of action ≡ string_bytes word.now ∷ []) }
{
    match word.as_str() {
        "--rows" => Some(LogAction::List(Listing::Rows)),
        "--check" => Some(LogAction::List(Listing::Check)),
        "--cut" => Some(LogAction::Cut),
        _ => None,
    }
}
