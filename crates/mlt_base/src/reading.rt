//! The pieces that all readers of numbers share: digits, marks and the end of the text.

ghost use Rattle.std.specs.Prelude.{◌≡◌, ℕ, ◌+◌, ◌^◌, ◌-◌, ◌<◌, ◌≤◌, ◌==◌, length, min, IfOk};
ghost use Rattle.std.specs.List.{position_or_len};
ghost use Rattle.std.specs.Option.{option_map};
ghost use Rattle.mlt_base.specs.SplitOnce.{split_once};
ghost use Rattle.mlt_base.specs.Reading.{held, digit_count, number, digits_at, mark_at, end_at};
ghost use Rattle.mlt_base.specs.Try.{Gives};

use crate::fault::NumFault;

/// A place in a text, held to what a fault can tell.
#[tactic(auto, unfolding(crate::specs::Reading::held))]
pub(crate) fn held(place: usize) -> u32
    ensures { result ≡ held place }
{
    place.min(u32::MAX as usize) as u32
}

/// How many digits the bytes begin with.
pub fn digit_count(bytes: &[u8]) -> usize
    ensures value { result ≡ digit_count bytes.now }
    ensures bound { result ≤ length bytes.now }
{
    let mut count = 0;
    for b in bytes {
        if !b.is_ascii_digit() {
            return count;
        }
        count += 1;
    }
    count
}

/// How many bytes stand before the first mark: all, where there is none.
pub(crate) fn length_before(mark: u8, bytes: &[u8]) -> usize
    ensures value { result ≡ position_or_len (λ b. b == mark) bytes.now }
    ensures bound { result ≤ length bytes.now }
{
    let mut count = 0;
    for b in bytes {
        if *b == mark {
            return count;
        }
        count += 1;
    }
    count
}

/// What stands before the first mark, and what stands behind it.
#[tactic(auto, unfolding(crate::specs::SplitOnce::split_once))]
pub(crate) fn split_once(mark: u8, bytes: &[u8]) -> Option<(&[u8], &[u8])>
    ensures { option_map (λ x. (x.0.now, x.1.now)) result ≡ split_once mark bytes.now }
{
    let length = length_before(mark, bytes);
    if length < bytes.len() {
        Some((&bytes[..length], &bytes[length + 1..]))
    } else {
        None
    }
}

/// The number of these digits, held to 2^64 - 1.
pub fn number(digits: &[u8]) -> u64
    ensures { result ≡ min (number digits.now) (2 ^ 64 - 1) }
{
    let mut n = 0u64;
    for digit in digits {
        n = n
            .saturating_mul(10)
            .saturating_add(u64::from(digit.saturating_sub(b'0')));
    }
    n
}

/// One or more digits: they, the place behind them, and the bytes from there on.
#[tactic(auto, unfolding(crate::specs::Reading::digits_at))]
pub(crate) fn digits_at(at: usize, bytes: &[u8]) -> Result<(&[u8], usize, &[u8]), NumFault>
    requires { at + length bytes.now < 2 ^ 63 }
    ensures value { Gives (λ x. (x.0.now, x.1, x.2.now)) result (digits_at at bytes.now) }
    ensures place { IfOk result (λ x. x.1 + length x.2.now ≡ at + length bytes.now) }
{
    let count = digit_count(bytes);
    if count == 0 {
        return Err(NumFault::BadDigit(held(at)));
    }
    let (digits, rest) = bytes.split_at(count);
    Ok((digits, at + count, rest))
}

/// This one byte: the place behind it, and the bytes from there on.
#[tactic(auto, unfolding(crate::specs::Reading::mark_at))]
pub(crate) fn mark_at(mark: u8, at: usize, bytes: &[u8]) -> Result<(usize, &[u8]), NumFault>
    requires { at + length bytes.now < 2 ^ 63 }
    ensures value { Gives (λ x. (x.0, x.1.now)) result (mark_at mark at bytes.now) }
    ensures place { IfOk result (λ x. x.0 + length x.1.now ≡ at + length bytes.now) }
{
    match bytes {
        [first, rest @ ..] if *first == mark => Ok((at + 1, rest)),
        _ => Err(NumFault::BadDigit(held(at))),
    }
}

/// The end of the text.
#[tactic(auto, unfolding(crate::specs::Reading::end_at))]
pub(crate) fn end_at(at: usize, bytes: &[u8]) -> Result<(), NumFault>
    ensures { Gives (λ x. tt) result (end_at at bytes.now) }
{
    if bytes.is_empty() {
        Ok(())
    } else {
        Err(NumFault::BadDigit(held(at)))
    }
}
