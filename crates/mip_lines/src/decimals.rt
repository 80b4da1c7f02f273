//! Decimal numbers.

ghost use Rattle.std.specs.Prelude.{◌≡◌, ◌≢◌, ℕ, ◌+◌, ◌*◌, ◌++◌, ◌<◌, ◌≤◌, ◌^◌, decimal, MatchOption, IfSome, OnOk, OnErr};
ghost use Rattle.std.specs.Char.{digit_value};
ghost use Rattle.std.specs.Option.{SomeIff};
ghost use Rattle.std.specs.Str.Parse.{AllDigits, digits_value};
ghost use Rattle.mip_lines.specs.Decimals.{number_in};

use itoa::Buffer;
use mip_words::{Bytes, Memory};

/// The number that a digit behind these makes of it; none where it is no digit, or the number has more than 64 bits.
fn with_digit(number: u64, c: u8) -> Option<u64>
    ensures { SomeIff result ((digit_value c < 10) × (number * 10 + digit_value c < 2 ^ 64)) (number * 10 + digit_value c) }
{
    if !c.is_ascii_digit() {
        return None;
    }
    number.checked_mul(10)?.checked_add(u64::from(c - b'0'))
}

/// The number that the digits of the field write, whatever stands first.
fn value_of(field: &[u8]) -> Option<u64>
    ensures { SomeIff result (AllDigits 10 field.now × (digits_value 10 field.now < 2 ^ 64)) (digits_value 10 field.now) }
{
    let mut number = 0;
    for c in field {
        number = with_digit(number, *c)?;
    }
    Some(number)
}

/// The number whose digits the field is.
fn number_of(field: &[u8]) -> Option<u64>
    ensures { MatchOption result ((n : ℕ) → n < 2 ^ 64 → decimal n ≢ field.now) (λ n. decimal n ≡ field.now) }
{
    if field.is_empty() {
        return None;
    }
    if field[0] == b'0' && field.len() > 1 {
        return None;
    }
    value_of(field)
}

/// The number from `low` to `high` whose digits the field is: it has no sign and no leading zero.
pub fn number(low: u64, high: u64, field: &[u8]) -> Option<u64>
    ensures value { result ≡ number_in low high field.now }
    ensures within { IfSome result (λ n. (low ≤ n) × (n ≤ high)) }
{
    let Some(number) = number_of(field) else {
        return None;
    };
    if number < low {
        None
    } else if high < number {
        None
    } else {
        Some(number)
    }
}

/// Appends the digits of a number.
pub fn put_number(out: &mut Bytes, number: u64) -> Result<(), Memory>
    ensures ok { OnOk result (out.new ≡ out.old ++ decimal number) }
    ensures err { OnErr result (out.new ≡ out.old) }
{
    out.extend(Buffer::new().format(number).as_bytes())
}
