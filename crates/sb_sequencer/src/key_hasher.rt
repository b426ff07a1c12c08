//! The hasher of a log's keys.
ghost use Rattle.std.specs.Prelude.{◌≡◌};
ghost use Rattle.sb_sequencer.specs.inner.KeyHash.{first_number};

use std::hash::Hasher;

// How many requests in a row of one client share a group of the set's index: a power of 2. A group
// has 12 lanes, so a second block of 8 in it spills into the next group.
const BLOCK: u64 = 8;

// The set takes a tag from the top 8 of the 32 bits of a hash that it uses. So this is how far
// apart the places in a block are.
const TAG_STEP: u64 = (1 << 32) / BLOCK;

// Numbers with scattered bits, as the default hasher has them.
const SEED: u64 = 0x243f_6a88_85a3_08d3;

const MULTIPLIER: u64 = 0x9e37_79b9_7f4a_7c15;

/// Hashes the keys of a log. A client numbers its requests in a row, so neighbours share a group
/// of the set's index: what the look-up of one loads, the next finds in the cache. Their tags
/// differ, so the set tells them apart without a look at their keys.
///
/// The order of the log and every answer are the same under any hasher. The seed is fixed, as the
/// default's is: whoever picks the keys can make them collide, which only costs time.
#[derive(Clone, Copy)]
pub(crate) struct KeyHasher {
    // The last two numbers that were written: of a key, the client and then the request.
    state: u64,
}

impl Default for KeyHasher {
    ghost is_default = { λ hasher. hasher.state ≡ 0 };

    fn default() -> KeyHasher {
        KeyHasher { state: 0 }
    }
}

// The number in the first four bytes. Both numbers of a key are written as four.
#[inline(always)]
fn first_number(bytes: &[u8]) -> u32
    ensures { result ≡ first_number bytes.now }
{
    match bytes {
        [a, b, c, d, ..] => u32::from_le_bytes([*a, *b, *c, *d]),
        _ => 0,
    }
}

impl Hasher for KeyHasher {
    ghost use Rattle.sb_sequencer.specs.inner.KeyHash.{after_write, key_hash};

    ghost write = { after_write };

    ghost finish = { key_hash };

    #[inline(always)]
    fn finish(&self) -> u64 {
        let block = self.state / BLOCK;
        let place = self.state % BLOCK;
        let product = (block ^ SEED) as u128 * MULTIPLIER as u128;
        let block_hash = (product & 0xFFFF_FFFF_FFFF_FFFF) as u64 ^ (product >> 64) as u64;
        block_hash ^ (place * TAG_STEP)
    }

    #[inline(always)]
    fn write(&mut self, bytes: &[u8]) {
        self.state = (self.state << 32) | first_number(bytes) as u64;
    }
}
