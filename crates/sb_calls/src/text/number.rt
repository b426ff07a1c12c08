//! Numbers below 2^32 in decimal.
ghost use Rattle.std.specs.Prelude.{◌≡◌};
ghost use Rattle.sb_calls.specs.Ask as spec;

use sb_amount::is_canonical;

/// The number that a text spells, or `None` if the text isn't a number below 2^32 in decimal
/// without leading zeros.
#[tactic(auto, unfolding(crate::specs::Ask::read_number))]
pub fn read_number(text: &[u8]) -> Option<u32>
    ensures { result ≡ spec.read_number text.now }
{
    if !is_canonical(text) {
        return None;
    }
    let mut number: u64 = 0;
    for byte in text {
        if !byte.is_ascii_digit() {
            return None;
        }
        number = number
            .saturating_mul(10)
            .saturating_add(u64::from(*byte - b'0'));
    }
    u32::try_from(number).ok()
}
