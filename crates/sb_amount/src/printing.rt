//! Cents as money text.
ghost use Rattle.std.specs.Prelude.{◌≡◌, ◌+◌, ◌<◌, ◌≤◌, ◌∷◌, ◌++◌, length, take, drop};
ghost use Rattle.arrayvec.specs.ArrayString.{array_string_len};
ghost use Rattle.sb_amount.specs.Money.{money, unsigned_money, two_digits};

use crate::cents::Cents;
use arrayvec::ArrayString;
use itoa::{Buffer, write_digits};

/// The money text of an amount.
pub fn print(amount: Cents) -> ArrayString<24>
    ensures { result.bytes ≡ money amount }
{
    print_total(amount.value())
}

/// The money text of any number of cents, such as a bank's total.
pub fn print_total(cents: i64) -> ArrayString<24>
    ensures { result.bytes ≡ money cents }
{
    let size = cents.unsigned_abs();
    let mut text = ArrayString::new();
    if cents < 0 {
        text.push('-');
    }
    let mut buffer = Buffer::new();
    text.push_str(buffer.format(size / 100));
    text.push('.');
    push_two_digits(&mut text, size % 100);
    text
}

// Appends the two digits of a number below 100.
fn push_two_digits(text: &mut ArrayString<24>, number: u64)
    requires below_100 { number < 100 }
    requires room { array_string_len text.old + 2 ≤ 24 }
    ensures { text.new.bytes ≡ text.old.bytes ++ two_digits number }
{
    let [tens, ones] = two_digits(number);
    text.push(char::from(tens));
    text.push(char::from(ones));
}

/// Writes the money text of any number of cents so that it ends at `end`, and answers where it
/// starts. All other bytes stay.
#[inline]
pub fn write_total(cents: i64, text: &mut [u8], end: usize) -> usize
    requires { (length (money cents) ≤ end) × (end ≤ length text.old) }
    ensures start { result + length (money cents) ≡ end }
    ensures written { drop result text.new ≡ money cents ++ drop end text.old }
    ensures before { take result text.new ≡ take result text.old }
{
    let start = write_size(cents.unsigned_abs(), text, end);
    if cents < 0 {
        text[start - 1] = b'-';
        return start - 1;
    }
    start
}

// Writes cents without a sign so that they end at `end`, and answers where they start.
#[inline]
fn write_size(size: u64, text: &mut [u8], end: usize) -> usize
    requires { (length (unsigned_money size) ≤ end) × (end ≤ length text.old) }
    ensures start { result + length (unsigned_money size) ≡ end }
    ensures written { drop result text.new ≡ unsigned_money size ++ drop end text.old }
    ensures before { take result text.new ≡ take result text.old }
{
    write_decimals(size % 100, text, end - 3);
    write_digits(size / 100, text, end - 3)
}

// Writes a point and the two digits of a number below 100.
#[inline]
fn write_decimals(number: u64, text: &mut [u8], at: usize)
    requires below_100 { number < 100 }
    requires room { at + 3 ≤ length text.old }
    ensures written { drop at text.new ≡ 46 ∷ two_digits number ++ drop (at + 3) text.old }
    ensures before { take at text.new ≡ take at text.old }
{
    let [tens, ones] = two_digits(number);
    text[at] = b'.';
    text[at + 1] = tens;
    text[at + 2] = ones;
}

// The two digits of a number below 100.
#[inline]
fn two_digits(number: u64) -> [u8; 2]
    requires { number < 100 }
    ensures { result ≡ two_digits number }
{
    let tens = (number / 10) as u8;
    let ones = (number % 10) as u8;
    [b'0' + tens, b'0' + ones]
}
