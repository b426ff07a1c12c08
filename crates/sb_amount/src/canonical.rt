//! Whether digits have leading zeros.
ghost use Rattle.std.specs.Prelude.{◌≡◌};
ghost use Rattle.sb_amount.specs.Reading.{is_canonical};

/// Whether there is one byte, or several whose first isn't `0`. Of digits, these are those without
/// leading zeros.
///
/// It doesn't test that they are digits.
pub fn is_canonical(digits: &[u8]) -> bool
    ensures { result ≡ is_canonical digits.now }
{
    match digits {
        [] => false,
        [_] => true,
        [first, ..] => *first != b'0',
    }
}
