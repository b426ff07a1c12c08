//! Where a log ends.
use sha2::Sha256;

/// Where the whole records of a file end.
#[derive(Drop)]
pub struct LogEnd {
    /// How many bytes the records take.
    pub records: usize,
    /// How many bytes follow them, of a record that isn't whole or of zeros.
    pub torn: usize,
    /// The hasher of the bytes of all bodies.
    pub hasher: Sha256,
}
