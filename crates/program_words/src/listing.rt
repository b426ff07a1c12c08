//! What is listed of a log.

/// What is listed of a log.
#[derive(Clone, Copy, Debug, PartialEq, Eq)]
pub enum Listing {
    /// Its opening and its asks, which are an input of a run.
    Asks,
    /// The rows after it, as an opening.
    Rows,
    /// Its line: the number of its calls, and its digest.
    Check,
}
