//! Times of day in a run, as the number of the frame that they mean.

ghost use Rattle.std.specs.Prelude.{◌≡◌, ℕ, ◌+◌, ◌^◌, ◌-◌, ◌*◌, ◌/◌, ◌<◌, ◌≤◌, length, min, IfOk};
ghost use Rattle.mlt_base.specs.Reading.{number, below};
ghost use Rattle.mlt_base.specs.Try.{Gives};
ghost use Rattle.mlt_base.specs.Time.{seconds_of, milliseconds_of, frames_a_second, frames_of, last_digits, fraction_digits, behind_seconds, behind_hours, behind_first, form_of, time, Clock, Counted};
ghost use Rattle.mlt_base.specs.TimeParts.{form_view, HasShortFraction};

use crate::fault::NumFault;
use crate::profile::{Pos, Rate};
use crate::reading::{digits_at, end_at, held, mark_at, number};

/// The digits of each field of a time.
#[derive(Clone, Copy)]
enum Form<'a> {
    Frames(&'a [u8]),
    Clock {
        hours: &'a [u8],
        minutes: &'a [u8],
        seconds: &'a [u8],
        fraction: &'a [u8],
    },
    Counted {
        hours: &'a [u8],
        minutes: &'a [u8],
        seconds: &'a [u8],
        frames: &'a [u8],
    },
}

/// The last digits of a text.
#[tactic(auto, unfolding(crate::specs::Time::last_digits))]
fn last_digits(at: usize, bytes: &[u8]) -> Result<&[u8], NumFault>
    requires { at + length bytes.now < 2 ^ 63 }
    ensures { Gives (λ x. x.now) result (last_digits at bytes.now) }
{
    let (digits, at, rest) = digits_at(at, bytes)?;
    end_at(at, rest)?;
    Ok(digits)
}

/// One to three digits, which are the last of a text.
#[tactic(auto, unfolding(crate::specs::Time::fraction_digits))]
fn fraction_digits(at: usize, bytes: &[u8]) -> Result<&[u8], NumFault>
    requires { at + length bytes.now < 2 ^ 63 }
    ensures value { Gives (λ x. x.now) result (fraction_digits at bytes.now) }
    ensures short { IfOk result (λ x. length x.now ≤ 3) }
{
    let (digits, behind, rest) = digits_at(at, bytes)?;
    if digits.len() > 3 {
        return Err(NumFault::BadDigit(held(at + 3)));
    }
    end_at(behind, rest)?;
    Ok(digits)
}

/// What stands behind the seconds of a clock: the end, frames or a fraction.
#[tactic(auto, unfolding(crate::specs::Time::behind_seconds))]
fn behind_seconds<'a>(
    hours: &'a [u8],
    minutes: &'a [u8],
    seconds: &'a [u8],
    at: usize,
    bytes: &'a [u8],
) -> Result<Form<'a>, NumFault>
    requires { at + length bytes.now < 2 ^ 63 }
    ensures value { Gives form_view result (behind_seconds hours.now minutes.now seconds.now at bytes.now) }
    ensures short { IfOk result (λ form. HasShortFraction (form_view form)) }
{
    match bytes {
        [] => Ok(Form::Clock {
            hours,
            minutes,
            seconds,
            fraction: bytes,
        }),
        [b':', rest @ ..] => Ok(Form::Counted {
            hours,
            minutes,
            seconds,
            frames: last_digits(at + 1, rest)?,
        }),
        [b'.', rest @ ..] => Ok(Form::Clock {
            hours,
            minutes,
            seconds,
            fraction: fraction_digits(at + 1, rest)?,
        }),
        _ => Err(NumFault::BadDigit(held(at))),
    }
}

/// What stands behind the hours of a clock.
#[tactic(auto, unfolding(crate::specs::Time::behind_hours))]
fn behind_hours<'a>(hours: &'a [u8], at: usize, bytes: &'a [u8]) -> Result<Form<'a>, NumFault>
    requires { at + length bytes.now < 2 ^ 63 }
    ensures value { Gives form_view result (behind_hours hours.now at bytes.now) }
    ensures short { IfOk result (λ form. HasShortFraction (form_view form)) }
{
    let (at, rest) = mark_at(b':', at, bytes)?;
    let (minutes, at, rest) = digits_at(at, rest)?;
    let (at, rest) = mark_at(b':', at, rest)?;
    let (seconds, at, rest) = digits_at(at, rest)?;
    behind_seconds(hours, minutes, seconds, at, rest)
}

/// What stands behind the first digits: nothing, where they are frames, or the rest of a clock.
#[tactic(auto, unfolding(crate::specs::Time::behind_first))]
fn behind_first<'a>(digits: &'a [u8], at: usize, bytes: &'a [u8]) -> Result<Form<'a>, NumFault>
    requires { at + length bytes.now < 2 ^ 63 }
    ensures value { Gives form_view result (behind_first digits.now at bytes.now) }
    ensures short { IfOk result (λ form. HasShortFraction (form_view form)) }
{
    if bytes.is_empty() {
        return Ok(Form::Frames(digits));
    }
    behind_hours(digits, at, bytes)
}

/// The form of a time.
#[tactic(auto, unfolding(crate::specs::Time::form_of))]
fn form_of(bytes: &[u8]) -> Result<Form<'_>, NumFault>
    requires { length bytes.now < 2 ^ 63 }
    ensures value { Gives form_view result (form_of bytes.now) }
    ensures short { IfOk result (λ form. HasShortFraction (form_view form)) }
{
    if bytes.is_empty() {
        return Err(NumFault::Empty);
    }
    let (digits, at, rest) = digits_at(0, bytes)?;
    behind_first(digits, at, rest)
}

/// A number of frames, where it is below 2^31.
#[tactic(auto, unfolding(crate::specs::Reading::below))]
fn frame(n: u64) -> Result<Pos, NumFault>
    ensures value { Gives (λ x. x.0) result (below (2 ^ 31) n) }
    ensures small { IfOk result (λ x. x.0 < 2 ^ 31) }
{
    if n < 1 << 31 {
        Ok(Pos(n as u32))
    } else {
        Err(NumFault::TooLarge)
    }
}

/// The seconds of a clock, held to 2^64 - 1.
fn seconds_of(hours: &[u8], minutes: &[u8], seconds: &[u8]) -> u64
    ensures { result ≡ min (seconds_of hours.now minutes.now seconds.now) (2 ^ 64 - 1) }
{
    number(hours)
        .saturating_mul(60)
        .saturating_add(number(minutes))
        .saturating_mul(60)
        .saturating_add(number(seconds))
}

/// The milliseconds of up to three digits behind a `.`.
fn milliseconds_of(fraction: &[u8]) -> u64
    requires { length fraction.now ≤ 3 }
    ensures value { result ≡ milliseconds_of fraction.now }
    ensures small { result ≤ 30000 }
{
    let digit = |b: &u8| u64::from(b.saturating_sub(b'0'));
    match fraction {
        [tenths] => digit(tenths) * 100,
        [tenths, hundredths] => digit(tenths) * 100 + digit(hundredths) * 10,
        [tenths, hundredths, thousandths] => {
            digit(tenths) * 100 + digit(hundredths) * 10 + digit(thousandths)
        }
        _ => 0,
    }
}

/// The frame of a clock's seconds and milliseconds.
fn clock_frame(
    rate: Rate,
    hours: &[u8],
    minutes: &[u8],
    seconds: &[u8],
    fraction: &[u8],
) -> Result<Pos, NumFault>
    requires { length fraction.now ≤ 3 }
    ensures value { Gives (λ x. x.0) result (below (2 ^ 31) (frames_of rate.num rate.den (Clock hours.now minutes.now seconds.now fraction.now))) }
    ensures small { IfOk result (λ x. x.0 < 2 ^ 31) }
{
    let seconds = seconds_of(hours, minutes, seconds);
    if seconds >= 1 << 31 {
        return Err(NumFault::TooLarge);
    }
    let milliseconds = seconds * 1000 + milliseconds_of(fraction);
    frame(milliseconds * u64::from(rate.num) / (1000 * u64::from(rate.den)))
}

/// The frame of a clock's seconds and the frames behind them.
fn counted_frame(
    rate: Rate,
    hours: &[u8],
    minutes: &[u8],
    seconds: &[u8],
    frames: &[u8],
) -> Result<Pos, NumFault>
    ensures value { Gives (λ x. x.0) result (below (2 ^ 31) (frames_of rate.num rate.den (Counted hours.now minutes.now seconds.now frames.now))) }
    ensures small { IfOk result (λ x. x.0 < 2 ^ 31) }
{
    let seconds = seconds_of(hours, minutes, seconds);
    if seconds >= 1 << 31 {
        return Err(NumFault::TooLarge);
    }
    let frames_a_second = u64::from(rate.num).div_ceil(u64::from(rate.den));
    frame((seconds * frames_a_second).saturating_add(number(frames)))
}

/// The frame that a time means.
fn frame_of(rate: Rate, form: Form) -> Result<Pos, NumFault>
    requires { HasShortFraction (form_view form) }
    ensures value { Gives (λ x. x.0) result (below (2 ^ 31) (frames_of rate.num rate.den (form_view form.entry))) }
    ensures small { IfOk result (λ x. x.0 < 2 ^ 31) }
{
    match form {
        Form::Frames(frames) => frame(number(frames)),
        Form::Clock {
            hours,
            minutes,
            seconds,
            fraction,
        } => clock_frame(rate, hours, minutes, seconds, fraction),
        Form::Counted {
            hours,
            minutes,
            seconds,
            frames,
        } => counted_frame(rate, hours, minutes, seconds, frames),
    }
}

/// Reads a time as the number of the frame that it means, below 2^31.
///
/// A time is a number of frames, `H:M:S`, `H:M:S.f` with one to three digits of a second's fraction,
/// or `H:M:S:F` with frames behind the seconds. A clock time is rounded down to a frame; with frames
/// behind it each second has the rate's frames, rounded up. `Empty` comes for the empty text,
/// `BadDigit` at the first byte that doesn't fit, or at the end of a text that is cut short, and then
/// `TooLarge`.
#[tactic(auto, unfolding(crate::specs::Time::time))]
pub fn read_time(text: &str, rate: Rate) -> Result<Pos, NumFault>
    ensures value { Gives (λ x. x.0) result (time rate.num rate.den text.now) }
    ensures small { IfOk result (λ x. x.0 < 2 ^ 31) }
{
    let form = form_of(text.as_bytes())?;
    frame_of(rate, form)
}
