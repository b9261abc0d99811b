//! A file as a picture, and a picture as a file.

ghost use Rattle.std.specs.Prelude.{◌≡◌, ℕ, ◌*◌, ◌<◌, ◌≤◌, ◌++◌, length, slice_index, Ok, IfOk, OnOk};
ghost use Rattle.mlt_base.specs.Try.{TryGives};
ghost use Rattle.mlt_base.specs.Ppm.{Numbers as Exact, sample_size, picture, ppm};
ghost use Rattle.mlt_base.specs.declared.limits.TheConstants.{MOST_SAMPLE};
ghost use Rattle.mlt_ppm.specs.View.{numbers_of, held_numbers};
ghost use Rattle.mlt_ppm.specs.Written.{header_text, colours, ppm_text, IsOpaque};

use crate::header::{Numbers, header};
use crate::raster::{Scale, pixels};
use itoa::Buffer;
use mlt_base::limits::MOST_PIXELS;
use mlt_base::{PpmFault, Still, Try};
use std::alloc::{AllocError, Global};

/// The bytes of a header that is written, at most.
const HEADER: usize = 17;

/// The bytes of a sample.
fn sample_size(maxval: u32) -> usize
    ensures { result ≡ sample_size maxval }
{
    if maxval < 256 { 1 } else { 2 }
}

/// The picture that the numbers of a header and the bytes behind it make.
#[tactic(auto, unfolding(mlt_base::specs::Ppm::picture))]
fn picture(alloc: Global, numbers: Numbers, raster: &[u8]) -> Result<Still, Try<PpmFault>>
    requires width { 1 ≤ numbers.width }
    requires height { 1 ≤ numbers.height }
    requires from_one { 1 ≤ numbers.maxval }
    requires to_most { numbers.maxval ≤ MOST_SAMPLE }
    ensures { (n : Exact) → held_numbers n ≡ numbers_of numbers → TryGives (λ s. s) result (picture n raster.now) }
{
    if u64::from(MOST_PIXELS) < numbers.width || u64::from(MOST_PIXELS) < numbers.height {
        return Err(Try::Fault(PpmFault::TooLarge));
    }
    let (width, height) = (numbers.width as u32, numbers.height as u32);
    let count = width as usize * height as usize;
    let needed = count * 3 * sample_size(numbers.maxval);
    if raster.len() < needed {
        return Err(Try::Fault(PpmFault::Short(raster.len() as u64, needed as u64)));
    }
    let pixels = pixels(alloc, &Scale::new(numbers.maxval), raster, count)?;
    Ok(Still::from_pixels(width, height, pixels))
}

/// Reads a binary PPM file. Each alpha is 255.
///
/// `NotP6` comes where the file doesn't begin so. Then `BadHeader` comes at the first byte at which a
/// header can't go on, which is the file's length where it ends too soon, or at the first digit of a
/// width or height of 0 or of a greatest sample outside 1 to 65535, whichever is first. Then `TooLarge`
/// comes for a width or a height above 4096, and then `Short` where bytes of samples are missing.
#[tactic(auto, unfolding(mlt_base::specs::Ppm::ppm))]
pub fn read(alloc: Global, bytes: &[u8]) -> Result<Still, Try<PpmFault>>
    ensures { TryGives (λ s. s) result (ppm bytes.now) }
{
    if !bytes.starts_with(b"P6") {
        return Err(Try::Fault(PpmFault::NotP6));
    }
    let numbers = header(bytes)?;
    picture(alloc, numbers, &bytes[numbers.end..])
}

/// Adds the header of a picture.
fn write_header(file: &mut Vec<u8>, width: u32, height: u32) -> Result<(), AllocError>
    ensures { OnOk result (file.new.items ≡ file.old.items ++ header_text width height) }
{
    let mut digits = Buffer::new();
    file.extend_from_slice(b"P6\n")?;
    file.extend_from_slice(digits.format(width).as_bytes())?;
    file.extend_from_slice(b" ")?;
    file.extend_from_slice(digits.format(height).as_bytes())?;
    file.extend_from_slice(b"\n255\n")
}

/// Adds the three colours of each pixel.
fn write_colours(file: &mut Vec<u8>, pixels: &[u8]) -> Result<(), AllocError>
    ensures added { OnOk result (file.new.items ≡ file.old.items ++ colours pixels.now) }
    ensures bytes { (k : ℕ) → slice_index pixels.now k < 256 }
{
    for p in 0..pixels.len() / 4 {
        file.extend_from_slice(&pixels[p * 4..p * 4 + 3])?;
    }
    Ok(())
}

/// Writes a picture as a binary PPM file of samples of one byte, without its alpha. Where each alpha is
/// 255, reading the file gives the picture.
pub fn write(alloc: Global, still: &Still) -> Result<Vec<u8>, AllocError>
    ensures file { IfOk result (λ v. v.items ≡ ppm_text still.now) }
    ensures read_back { IfOk result (λ v. IsOpaque still.now.pixels → ppm v.items ≡ Ok still.now) }
{
    let pixels = still.pixels();
    let mut file = Vec::with_capacity(alloc, HEADER + pixels.len() / 4 * 3)?;
    write_header(&mut file, still.width(), still.height())?;
    write_colours(&mut file, pixels)?;
    Ok(file)
}
