//! Money text as cents.
ghost use Rattle.std.specs.Prelude.{◌≡◌, ◌||◌, ◌+◌, ℤ, pos, min, nat_abs, true, false, Ok, IfOk, MatchOption, count_by};
ghost use Rattle.std.specs.Char.{is_ascii_digit};
ghost use Rattle.std.specs.List.{list_all, before_first};
ghost use Rattle.sb_amount.specs.Limit.{IsWithinLimit};
ghost use Rattle.sb_amount.specs.Money.{money};
ghost use Rattle.sb_amount.specs.Reading.{read_money, is_point, is_negative, without_sign, has_two_decimals, cents_of_digits};

use crate::canonical::is_canonical;
use crate::cents::{Cents, LIMIT};
use crate::fault::MoneyFault;

impl Cents {
    /// The amount whose money text this is.
    ///
    /// Fails with the first fault of the text, in the order of [`MoneyFault`]'s variants.
    pub fn read(text: &[u8]) -> Result<Cents, MoneyFault>
        // A text that is read spells the amount.
        ensures spelled { IfOk result (λ amount. text.now ≡ money amount) }
        // A text that spells an amount is read.
        ensures complete { (v : ℤ) → IsWithinLimit v → text.now ≡ money v → result ≡ Ok v }
        // The result, exactly.
        ensures exact { result ≡ read_money text.now }
    {
        let (is_negative, body) = split_sign(text);
        if body.is_empty() {
            return Err(MoneyFault::Empty);
        }
        let Some((size, points)) = read_digits(body) else {
            return Err(MoneyFault::NotDigit);
        };
        let Some(whole) = whole_part(body, points) else {
            return Err(MoneyFault::BadDecimals);
        };
        if !is_canonical(whole) || text == b"-0.00".as_slice() {
            return Err(MoneyFault::NotCanonical);
        }
        let cents = if is_negative { -size } else { size };
        Cents::new(cents).ok_or(MoneyFault::TooLarge)
    }
}

// Whether the text begins with `-`, and the text after that.
fn split_sign(text: &[u8]) -> (bool, &[u8])
    ensures sign { result.0 ≡ is_negative text.now }
    ensures body { result.1.now ≡ without_sign text.now }
{
    match text {
        [b'-', body @ ..] => (true, body),
        _ => (false, text),
    }
}

// The number that the digits spell without the points, or `LIMIT + 1` if it is above the limit, and
// the number of points. `None` if a byte is neither a digit nor a point.
fn read_digits(body: &[u8]) -> Option<(i64, usize)>
    ensures { MatchOption result
        (list_all (λ c. is_ascii_digit c || is_point c) body.now ≡ false)
        (λ read. (list_all (λ c. is_ascii_digit c || is_point c) body.now ≡ true)
        × (read.0 ≡ pos (min (cents_of_digits body.now) (nat_abs LIMIT + 1)))
        × (read.1 ≡ count_by is_point body.now)) }
{
    let mut size = 0;
    let mut points = 0;
    for byte in body {
        if byte.is_ascii_digit() {
            size = (size * 10 + i64::from(*byte - b'0')).min(LIMIT + 1);
        } else if *byte == b'.' {
            points += 1;
        } else {
            return None;
        }
    }
    Some((size, points))
}

// The part before the point, if there is exactly one point with exactly two bytes after it.
fn whole_part(body: &[u8], points: usize) -> Option<&[u8]>
    requires { points ≡ count_by is_point body.now }
    ensures { MatchOption result
        (has_two_decimals body.now ≡ false)
        (λ whole. (has_two_decimals body.now ≡ true)
        × (whole.now ≡ before_first is_point body.now)) }
{
    match body {
        [whole @ .., b'.', _, _] if points == 1 => Some(whole),
        _ => None,
    }
}
