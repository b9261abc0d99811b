//! The raster of a PPM file as the bytes of pixels.

ghost use Rattle.std.specs.Prelude.{◌≡◌, ℕ, ◌+◌, ◌*◌, ◌/◌, ◌%◌, ◌^◌, ◌<◌, ◌≤◌, [], ◌∷◌, length, slice_index, map, IfOk};
ghost use Rattle.std.specs.List.{range_with_len};
ghost use Rattle.std.specs.Simd.Lanes.{put_chunk};
ghost use Rattle.mlt_base.specs.declared.limits.TheConstants.{MOST_SAMPLE};
ghost use Rattle.mlt_base.specs.Ppm.{eight_bits, sample_size, pixel_byte, raster_pixels, needed};

use std::alloc::{AllocError, Global};
use std::simd::prelude::*;

/// Pixels that are made at a time, before they go behind the others.
const BLOCK: usize = 256;

/// How samples become bytes: the greatest sample, and the byte of each sample of one byte.
#[derive(Drop)]
pub(crate) struct Scale {
    pub(crate) maxval: u32,
    values: [u8; 256],
    ghost from_one: { 1 ≤ maxval },
    ghost to_most: { maxval ≤ MOST_SAMPLE },
    ghost made: { values ≡ map (eight_bits maxval) (range_with_len 0 256) },
}

/// A sample as a byte.
fn eight_bits(maxval: u32, v: u32) -> u8
    requires from_one { 1 ≤ maxval }
    requires to_most { maxval ≤ MOST_SAMPLE }
    ensures { result ≡ eight_bits maxval v }
{
    ((v.min(maxval) * 255 + maxval / 2) / maxval) as u8
}

/// The byte of each sample of one byte.
fn values_of(maxval: u32) -> [u8; 256]
    requires from_one { 1 ≤ maxval }
    requires to_most { maxval ≤ MOST_SAMPLE }
    ensures { result ≡ map (eight_bits maxval) (range_with_len 0 256) }
{
    let mut values = [0u8; 256];
    for v in 0..256 {
        values[v] = eight_bits(maxval, v as u32);
    }
    values
}

impl Scale {
    /// The scale of a greatest sample.
    pub(crate) fn new(maxval: u32) -> Scale
        requires from_one { 1 ≤ maxval }
        requires to_most { maxval ≤ MOST_SAMPLE }
        ensures { result.maxval ≡ maxval }
    {
        Scale {
            maxval,
            values: values_of(maxval),
        }
    }

    /// A sample of one byte as a byte.
    fn narrow(&self, raster: &[u8], i: usize) -> u8
        requires { i < length raster.now }
        ensures { result ≡ eight_bits self.now.maxval (slice_index raster.now i) }
    {
        self.values[raster[i] as usize]
    }

    /// A sample of two bytes as a byte.
    fn wide(&self, raster: &[u8], i: usize) -> u8
        requires { i * 2 + 1 < length raster.now }
        ensures { result ≡ eight_bits self.now.maxval (slice_index raster.now (i * 2) * 256 + slice_index raster.now (i * 2 + 1)) }
    {
        let high = u32::from(raster[i * 2]);
        let low = u32::from(raster[i * 2 + 1]);
        eight_bits(self.maxval, high * 256 + low)
    }
}

/// Writes a pixel that hides what lies under it.
#[inline(always)]
fn put_opaque(block: &mut [u8], at: usize, r: u8, g: u8, b: u8)
    requires { at + 4 ≤ length block.old }
    ensures { block.new ≡ put_chunk at block.old (r ∷ g ∷ b ∷ 255 ∷ []) }
{
    u8x4::from_array([r, g, b, 255]).copy_to_slice(&mut block[at..]);
}

/// Pixels of the block from `first` on, of samples of one byte; the block begins at pixel `from`.
fn put_narrow(block: &mut [u8], first: usize, scale: &Scale, raster: &[u8], from: usize)
    requires narrow { scale.now.maxval < 256 }
    requires whole { length block.old % 4 ≡ 0 }
    requires order { first * 4 ≤ length block.old }
    requires room { (from + length block.old / 4) * 3 ≤ length raster.now }
    ensures done { (k : ℕ) → first * 4 ≤ k → k < length block.old → slice_index block.new k ≡ pixel_byte scale.now.maxval raster.now (from * 4 + k) }
    ensures before { (k : ℕ) → k < first * 4 → slice_index block.new k ≡ slice_index block.old k }
{
    for p in first..block.len() / 4 {
        let at = (from + p) * 3;
        let r = scale.narrow(raster, at);
        let g = scale.narrow(raster, at + 1);
        let b = scale.narrow(raster, at + 2);
        put_opaque(block, p * 4, r, g, b);
    }
}

/// Pixels of the block, of samples of two bytes; the block begins at pixel `from`.
fn put_wide(block: &mut [u8], scale: &Scale, raster: &[u8], from: usize)
    requires wide { 256 ≤ scale.now.maxval }
    requires whole { length block.old % 4 ≡ 0 }
    requires room { (from + length block.old / 4) * 6 ≤ length raster.now }
    ensures { (k : ℕ) → k < length block.old → slice_index block.new k ≡ pixel_byte scale.now.maxval raster.now (from * 4 + k) }
{
    for p in 0..block.len() / 4 {
        let at = (from + p) * 3;
        let r = scale.wide(raster, at);
        let g = scale.wide(raster, at + 1);
        let b = scale.wide(raster, at + 2);
        put_opaque(block, p * 4, r, g, b);
    }
}

/// Pixels of the block, of samples that are the bytes themselves; the block begins at pixel `from`.
fn put_copied(block: &mut [u8], scale: &Scale, raster: &[u8], from: usize)
    requires plain { scale.now.maxval ≡ 255 }
    requires whole { length block.old % 4 ≡ 0 }
    requires room { (from + length block.old / 4) * 3 ≤ length raster.now }
    ensures { (k : ℕ) → k < length block.old → slice_index block.new k ≡ pixel_byte scale.now.maxval raster.now (from * 4 + k) }
{
    let pixels = block.len() / 4;
    let mut p = 0;
    while p + 4 <= pixels && (from + p) * 3 + 16 <= raster.len() {
        let samples = u8x16::from_slice(&raster[(from + p) * 3..]);
        let opaque = samples.shuffle(
            u8x16::splat(255),
            [0, 1, 2, 16, 3, 4, 5, 16, 6, 7, 8, 16, 9, 10, 11, 16],
        );
        opaque.copy_to_slice(&mut block[p * 4..]);
        p += 4;
    }
    put_narrow(block, p, scale, raster, from);
}

/// Pixels of the block, which begins at pixel `from`.
fn put_pixels(block: &mut [u8], scale: &Scale, raster: &[u8], from: usize)
    requires whole { length block.old % 4 ≡ 0 }
    requires room { (from + length block.old / 4) * 3 * sample_size scale.now.maxval ≤ length raster.now }
    ensures { (k : ℕ) → k < length block.old → slice_index block.new k ≡ pixel_byte scale.now.maxval raster.now (from * 4 + k) }
{
    if scale.maxval == 255 {
        put_copied(block, scale, raster, from);
    } else if scale.maxval < 256 {
        put_narrow(block, 0, scale, raster, from);
    } else {
        put_wide(block, scale, raster, from);
    }
}

/// So many pixels of the raster.
pub(crate) fn pixels(
    alloc: Global,
    scale: &Scale,
    raster: &[u8],
    count: usize,
) -> Result<Vec<u8>, AllocError>
    requires few { count ≤ 2 ^ 24 }
    requires room { needed scale.now.maxval count ≤ length raster.now }
    ensures value { IfOk result (λ v. v.items ≡ raster_pixels scale.now.maxval raster.now count) }
    ensures long { IfOk result (λ v. length v.items ≡ count * 4) }
{
    let mut pixels = Vec::with_capacity(alloc, count * 4)?;
    let mut block = [0u8; BLOCK * 4];
    let mut from = 0;
    while from < count {
        let some = BLOCK.min(count - from);
        let part = &mut block[..some * 4];
        put_pixels(part, scale, raster, from);
        pixels.extend_from_slice(part)?;
        from += some;
    }
    Ok(pixels)
}
