//! What a client asks as.

/// How a client asks.
#[derive(Clone, Copy, Debug, PartialEq, Eq)]
pub struct AskPlan {
    /// The client's number.
    pub client: u32,
    /// The request number of its first call. Each other call has the next one.
    pub first: u32,
    /// How many calls are asked at once, at most. 0 counts as 1.
    pub batch: usize,
}
