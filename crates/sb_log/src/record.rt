//! The head of a record.
ghost use Rattle.std.specs.Prelude.{◌≡◌, ◌++◌, ◌∷◌, [], ◌<◌, ◌≤◌, ◌^◌, ℕ, List, take, drop, length, IsTrue, ◌↔◌, MatchOption};
ghost use Rattle.std.specs.Int.{w32, from_be_bytes};
ghost use Rattle.sha2.specs.Hashers.{Holds256};
ghost use Rattle.sha2.specs.Sha256.{sha256};
ghost use Rattle.sb_log.specs.Reading.{Begins};
ghost use Rattle.sb_log.specs.Records as spec;

use sha2::{Digest, Sha256};

/// The number of bytes before a body.
pub const HEAD: usize = 40;

/// The number of bytes of a body's length and its complement.
pub(crate) const SIZE_FIELD: usize = 8;

/// A body's length and its complement.
#[tactic(auto, unfolding(crate::specs::Records::size_field))]
pub(crate) fn size_field(size: u32) -> [u8; SIZE_FIELD]
    ensures { result ≡ spec.size_field size }
{
    let mut field = [0; SIZE_FIELD];
    field[..4].copy_from_slice(&size.to_be_bytes());
    field[4..].copy_from_slice(&(!size).to_be_bytes());
    field
}

/// The digest of what a hasher holds. The hasher goes on.
pub(crate) fn digest_of(hasher: &Sha256) -> [u8; 32]
    ensures { (m : List ℕ) → Holds256 hasher.now m → result ≡ sha256 m }
{
    hasher.clone().unwrap().finalize()
}

/// A hasher that holds these bytes behind those that another one holds.
pub fn with_body(hasher: &Sha256, body: &[u8]) -> Sha256
    ensures { (m : List ℕ) → Holds256 hasher.now m → Holds256 result (m ++ body.now) }
{
    let mut longer = hasher.clone().unwrap();
    longer.update(body);
    longer
}

/// Writes the head of a record before its body. The hasher holds the bytes of all bodies up to and
/// with this one. The first [`HEAD`] bytes are the head's, and the body stays.
pub fn write_head(bytes: &mut [u8], hasher: &Sha256)
    requires head { HEAD ≤ length bytes.old }
    requires body { spec.IsBody (drop HEAD bytes.old) }
    ensures record { (before : List ℕ) → Holds256 hasher.now (before ++ drop HEAD bytes.old)
        → bytes.new ≡ spec.record_after before (drop HEAD bytes.old) }
    ensures body { drop HEAD bytes.new ≡ drop HEAD bytes.old }
{
    let size = (bytes.len() - HEAD) as u32;
    bytes[..SIZE_FIELD].copy_from_slice(&size_field(size));
    bytes[SIZE_FIELD..HEAD].copy_from_slice(&digest_of(hasher));
}

/// The body's length that the first bytes of a head state, if its complement fits, as far as they
/// go. `None` if no head begins so.
pub(crate) fn stated_size(head: &[u8]) -> Option<u32>
    ensures { MatchOption result
        ((size : ℕ) → size < 2 ^ 32 → Begins (take 8 head.now) (spec.size_field size) → ⊥)
        (λ size. Begins (take 8 head.now) (spec.size_field size)) }
{
    let size = u32::from_be_bytes(first_four(head));
    let field = size_field(size);
    let count = head.len().min(SIZE_FIELD);
    if are_same(&head[..count], &field[..count]) {
        Some(size)
    } else {
        None
    }
}

// The first four bytes, with zeros in place of those that are missing.
fn first_four(head: &[u8]) -> [u8; 4]
    ensures { result ≡ take 4 head.now ++ drop (length head.now) (0 ∷ 0 ∷ 0 ∷ 0 ∷ []) }
{
    let mut first = [0; 4];
    let count = head.len().min(4);
    first[..count].copy_from_slice(&head[..count]);
    first
}

// Whether these bytes are the same.
pub(crate) fn are_same(left: &[u8], right: &[u8]) -> bool
    ensures { IsTrue result ↔ (left.now ≡ right.now) }
{
    left == right
}
