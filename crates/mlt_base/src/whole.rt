//! Whole numbers with an optional sign.

ghost use Rattle.std.specs.Prelude.{◌≡◌, ◌+◌, ◌^◌, ◌-◌, ◌<◌, length};
ghost use Rattle.mlt_base.specs.Reading.{number};
ghost use Rattle.mlt_base.specs.Try.{Gives};
ghost use Rattle.mlt_base.specs.Whole.{digits_to_end, positive, negative, whole};

use crate::fault::NumFault;
use crate::reading::{digits_at, end_at, number};

/// One or more digits, and nothing behind them.
#[tactic(auto, unfolding(crate::specs::Whole::digits_to_end))]
fn digits_to_end(at: usize, bytes: &[u8]) -> Result<&[u8], NumFault>
    requires { at + length bytes.now < 2 ^ 63 }
    ensures { Gives (λ x. x.now) result (digits_to_end at bytes.now) }
{
    if bytes.is_empty() {
        return Err(NumFault::Empty);
    }
    let (digits, at, rest) = digits_at(at, bytes)?;
    end_at(at, rest)?;
    Ok(digits)
}

/// The number that the digits write, where it fits.
#[tactic(auto, unfolding(crate::specs::Whole::positive))]
fn positive(digits: &[u8]) -> Result<i64, NumFault>
    ensures { result ≡ positive (number digits.now) }
{
    let n = number(digits);
    if n < 1 << 63 {
        Ok(n as i64)
    } else {
        Err(NumFault::TooLarge)
    }
}

/// The number below 0 that a `-` and the digits write, where it fits.
#[tactic(auto, unfolding(crate::specs::Whole::negative))]
fn negative(digits: &[u8]) -> Result<i64, NumFault>
    ensures { result ≡ negative (number digits.now) }
{
    0i64.checked_sub_unsigned(number(digits))
        .ok_or(NumFault::TooLarge)
}

/// The whole number that all of the bytes write.
#[tactic(auto, unfolding(crate::specs::Whole::whole))]
pub(crate) fn whole_of(bytes: &[u8]) -> Result<i64, NumFault>
    ensures { result ≡ whole bytes.now }
{
    match bytes {
        [] => Err(NumFault::Empty),
        [b'-', digits @ ..] => negative(digits_to_end(1, digits)?),
        _ => positive(digits_to_end(0, bytes)?),
    }
}

/// Reads a whole number: an optional `-`, then decimal digits.
///
/// `Empty` comes for the empty text and for `-` alone, `BadDigit` at the first byte that doesn't
/// fit, and then `TooLarge` where the number doesn't fit 64 bits with a sign.
pub fn read_whole(text: &str) -> Result<i64, NumFault>
    ensures { result ≡ whole text.now }
{
    whole_of(text.as_bytes())
}
