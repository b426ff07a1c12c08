//! What was done with a pass.
use crate::work::Work;
use std::collections::LinkedList;

/// What a pass knows of its bench. No program makes a value of it: only proofs use it.
pub struct PassHistory {
    /// Parts of the right to know all. A worker has one, the owner the others. Together there are
    /// as many parts as a bench has passes at most.
    pub parts: u64,
    /// Whether it is the owner's.
    pub offers: bool,
    /// What it offered, in order.
    pub offered: LinkedList<Work>,
    /// What it picked, in order, each with its position in what was offered.
    pub picked: LinkedList<(u64, Work)>,
    /// What each pass that it took in had picked.
    pub absorbed: LinkedList<LinkedList<(u64, Work)>>,
    /// What nobody picked, as far as it was taken out.
    pub drained: LinkedList<Work>,
}
