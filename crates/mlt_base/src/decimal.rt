//! Decimal numbers, as fractions of 65536.

ghost use Rattle.std.specs.Prelude.{◌≡◌, ℕ, ◌+◌, ◌^◌, ◌-◌, ◌*◌, ◌/◌, ◌<◌, ◌≤◌, length};
ghost use Rattle.mlt_base.specs.Reading.{number, below};
ghost use Rattle.mlt_base.specs.Try.{Gives};
ghost use Rattle.mlt_base.specs.Decimal.{fraction_at, point_at, decimal_parts, decimal_value, decimal};

use crate::fault::NumFault;
use crate::reading::{digit_count, held, number};
use crate::value::Q16;

/// Behind a `.`, digits to the end, one digit at least on one of its sides.
#[tactic(auto, unfolding(crate::specs::Decimal::fraction_at))]
fn fraction_at<'a>(
    at: usize,
    whole: &'a [u8],
    fraction: &'a [u8],
) -> Result<(&'a [u8], &'a [u8]), NumFault>
    requires place { at + length fraction.now < 2 ^ 63 }
    ensures { Gives (λ x. (x.0.now, x.1.now)) result (fraction_at at whole.now fraction.now) }
{
    let count = digit_count(fraction);
    if count < fraction.len() || (whole.is_empty() && count == 0) {
        return Err(NumFault::BadDigit(held(at + count)));
    }
    Ok((whole, fraction))
}

/// Behind the first digits, the end or a `.`.
#[tactic(auto, unfolding(crate::specs::Decimal::point_at))]
fn point_at<'a>(
    at: usize,
    whole: &'a [u8],
    rest: &'a [u8],
) -> Result<(&'a [u8], &'a [u8]), NumFault>
    requires place { at + length rest.now < 2 ^ 63 }
    ensures { Gives (λ x. (x.0.now, x.1.now)) result (point_at at whole.now rest.now) }
{
    match rest {
        [] => Ok((whole, rest)),
        [b'.', fraction @ ..] => fraction_at(at + 1, whole, fraction),
        _ => Err(NumFault::BadDigit(held(at))),
    }
}

/// The digits on both sides of the `.`.
#[tactic(auto, unfolding(crate::specs::Decimal::decimal_parts))]
fn decimal_parts(at: usize, bytes: &[u8]) -> Result<(&[u8], &[u8]), NumFault>
    requires place { at + length bytes.now < 2 ^ 63 }
    ensures { Gives (λ x. (x.0.now, x.1.now)) result (decimal_parts at bytes.now) }
{
    if bytes.is_empty() {
        return Err(NumFault::Empty);
    }
    let count = digit_count(bytes);
    let (whole, rest) = bytes.split_at(count);
    point_at(at + count, whole, rest)
}

/// What the digits behind a `.` write, in units of 1/65536, rounded down.
///
/// The digits are taken from the last to the first, so no more than one of them is held at a time.
fn fraction_value(digits: &[u8]) -> u64
    ensures value { result ≡ number digits.now * 65536 / 10 ^ length digits.now }
    ensures bound { result ≤ 2000000 }
{
    let mut n = 0u64;
    let mut i = digits.len();
    while i > 0 {
        i -= 1;
        n = (u64::from(digits[i].saturating_sub(b'0')) * 65536 + n) / 10;
    }
    n
}

/// The number that digits write on both sides of a `.`, where it is below 65536.
fn decimal_value(whole: &[u8], fraction: &[u8]) -> Result<u32, NumFault>
    ensures { result ≡ below (2 ^ 32) (decimal_value whole.now fraction.now) }
{
    let n = number(whole)
        .saturating_mul(65536)
        .saturating_add(fraction_value(fraction));
    if n < 1 << 32 {
        Ok(n as u32)
    } else {
        Err(NumFault::TooLarge)
    }
}

/// The decimal that begins at a place of a text, and is all of these bytes.
#[tactic(auto, unfolding(crate::specs::Decimal::decimal))]
pub(crate) fn decimal_at(at: usize, bytes: &[u8]) -> Result<Q16, NumFault>
    requires place { at + length bytes.now < 2 ^ 63 }
    ensures { Gives (λ x. x.0) result (decimal at bytes.now) }
{
    let (whole, fraction) = decimal_parts(at, bytes)?;
    Ok(Q16(decimal_value(whole, fraction)?))
}

/// Reads a decimal number: digits with at most one `.` anywhere among them, any number of digits.
///
/// The fraction is the exact number rounded down. `Empty` comes for the empty text, `BadDigit` at
/// the first byte that doesn't fit, and at 1 for a `.` alone, and then `TooLarge` where the number
/// isn't below 65536.
pub fn read_decimal(text: &str) -> Result<Q16, NumFault>
    ensures { Gives (λ x. x.0) result (decimal 0 text.now) }
{
    decimal_at(0, text.as_bytes())
}
