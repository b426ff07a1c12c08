//! A replica's answer to another one's state.

/// What a replica did with a state.
#[derive(Clone, Copy, Debug, PartialEq, Eq)]
pub enum Adopted {
    /// The replica adopted the state, and its log has this length now.
    Adopted(u64),
    /// The state has no more entries than the replica's own log, whose length this is. Nothing
    /// changed.
    Behind(u64),
}
