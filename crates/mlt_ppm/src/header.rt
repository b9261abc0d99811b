//! The header of a PPM file: three numbers, each behind white space or comments.

ghost use Rattle.std.specs.Prelude.{◌≡◌, ℕ, ◌+◌, ◌^◌, ◌<◌, ◌≤◌, true, false, length, drop, IfOk, IsTrue};
ghost use Rattle.mlt_base.specs.Try.{Gives};
ghost use Rattle.mlt_base.specs.Ppm.{is_white, is_line_end, blank_count, number_at, field_at, white_at, header};
ghost use Rattle.mlt_base.specs.declared.limits.TheConstants.{MOST_SAMPLE};
ghost use Rattle.mlt_ppm.specs.View.{held, allowed, held_field, held_header, numbers_of};

use mlt_base::PpmFault;
use mlt_base::limits::MOST_SAMPLE;
use mlt_base::reading::{digit_count, number};

/// What a header says: the picture's measures in pixels, the greatest sample, and the place where the
/// raster begins. The greatest number stands for any measure that is at least that.
#[derive(Clone, Copy)]
pub(crate) struct Numbers {
    pub(crate) width: u64,
    pub(crate) height: u64,
    pub(crate) maxval: u32,
    pub(crate) end: usize,
}

/// A number of a header: a width or a height, or the greatest sample.
#[derive(Clone, Copy)]
enum Field {
    Side,
    Depth,
}

/// Whether a field may have the number, which stands for any that is at least that where it is the greatest.
fn is_allowed(field: Field, value: u64) -> bool
    ensures { (n : ℕ) → held n ≡ value → result ≡ allowed field n }
{
    match field {
        Field::Side => 1 <= value,
        Field::Depth => 1 <= value && value <= u64::from(MOST_SAMPLE),
    }
}

/// Whether the byte is white space.
fn is_white(b: u8) -> bool
    ensures { result ≡ is_white b }
{
    b == b' ' || (b'\t' <= b && b <= b'\r')
}

/// Whether a comment ends with the byte.
fn is_line_end(b: u8) -> bool
    ensures { result ≡ is_line_end b }
{
    b == b'\n' || b == b'\r'
}

/// How many bytes of white space and comments the bytes begin with.
fn blank_count(bytes: &[u8]) -> usize
    ensures value { result ≡ blank_count false bytes.now }
    ensures bound { result ≤ length bytes.now }
{
    let mut count = 0;
    let mut comment = false;
    for b in bytes {
        if comment {
            comment = !is_line_end(*b);
        } else if *b == b'#' {
            comment = true;
        } else if !is_white(*b) {
            return count;
        }
        count += 1;
    }
    count
}

/// A number that is allowed at a place, and the place behind it.
#[tactic(auto, unfolding(mlt_base::specs::Ppm::number_at))]
fn number_at(field: Field, at: usize, bytes: &[u8]) -> Result<(u64, usize), PpmFault>
    requires { at + length bytes.now < 2 ^ 63 }
    ensures value { result ≡ held_field (number_at (allowed field) at bytes.now) }
    ensures place { IfOk result (λ f. f.1 ≤ at + length bytes.now) }
    ensures fits { IfOk result (λ f. allowed field f.0 ≡ true) }
{
    let count = digit_count(bytes);
    let value = number(&bytes[..count]);
    if count == 0 || !is_allowed(field, value) {
        return Err(PpmFault::BadHeader(at as u64));
    }
    Ok((value, at + count))
}

/// A separator from a place on and a number that is allowed behind it, and the place behind both.
#[tactic(auto, unfolding(mlt_base::specs::Ppm::field_at))]
fn field_at(field: Field, at: usize, bytes: &[u8]) -> Result<(u64, usize), PpmFault>
    requires { at + length bytes.now < 2 ^ 63 }
    ensures value { result ≡ held_field (field_at (allowed field) at bytes.now) }
    ensures place { IfOk result (λ f. f.1 ≤ at + length bytes.now) }
    ensures fits { IfOk result (λ f. allowed field f.0 ≡ true) }
{
    let count = blank_count(bytes);
    if count == 0 {
        return Err(PpmFault::BadHeader(at as u64));
    }
    number_at(field, at + count, &bytes[count..])
}

/// The one byte of white space that stands before the raster.
#[tactic(auto, unfolding(mlt_base::specs::Ppm::white_at))]
fn white_at(at: usize, bytes: &[u8]) -> Result<(), PpmFault>
    ensures value { Gives (λ x. tt) result (white_at at bytes.now) }
    ensures some { IfOk result (λ x. 0 < length bytes.now) }
{
    match bytes {
        [first, ..] if is_white(*first) => Ok(()),
        _ => Err(PpmFault::BadHeader(at as u64)),
    }
}

/// The header of a file that begins with `P6`.
#[tactic(auto, unfolding(mlt_base::specs::Ppm::header))]
pub(crate) fn header(bytes: &[u8]) -> Result<Numbers, PpmFault>
    requires { 2 ≤ length bytes.now }
    ensures value { Gives numbers_of result (held_header (header bytes.now)) }
    ensures place { IfOk result (λ h. h.end ≤ length bytes.now) }
    ensures range { IfOk result (λ h. (1 ≤ h.width) × (1 ≤ h.height) × (1 ≤ h.maxval) × (h.maxval ≤ MOST_SAMPLE)) }
{
    let (width, end) = field_at(Field::Side, 2, &bytes[2..])?;
    let (height, end) = field_at(Field::Side, end, &bytes[end..])?;
    let (maxval, end) = field_at(Field::Depth, end, &bytes[end..])?;
    white_at(end, &bytes[end..])?;
    Ok(Numbers {
        width,
        height,
        maxval: maxval as u32,
        end: end + 1,
    })
}
