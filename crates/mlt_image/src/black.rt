//! Pictures over black.
//!
//! A picture goes by blocks of pixels: the colours are moved as they are, which is all where a block is opaque; one
//! that isn't is packed anew, and is black where it doesn't show.

ghost use Rattle.std.specs.Prelude.{◌≡◌, ℕ, ◌+◌, ◌*◌, ◌/◌, ◌%◌, ◌<◌, ◌≤◌, true, length, slice_index};
ghost use Rattle.mlt_base.specs.Picture.{on_black, over_black};
ghost use Rattle.mlt_image.specs.Packed.{packed};

use mlt_kernel::pixel::{alphas, pixel_at};
use std::simd::u8x16;

/// How many pixels a block has.
const BLOCK: usize = 256;

/// The colours of a pixel that is laid over black: each times alpha, in 255 parts, to the nearest whole
/// number.
pub fn over_black(pixel: [u8; 4]) -> [u8; 3]
    ensures { result ≡ over_black pixel }
{
    let [r, g, b, a] = pixel;
    [on_black(r, a), on_black(g, a), on_black(b, a)]
}

/// Writes a picture over black: three bytes a pixel, red, green and blue. `src` has four bytes a pixel, and
/// `dst` has room for three.
pub fn pack_rgb24(src: &[u8], dst: &mut [u8])
    requires whole { length src.now % 4 ≡ 0 }
    requires room { length dst.old ≡ length src.now / 4 * 3 }
    ensures { dst.new ≡ over_black src.now }
{
    let pixels = src.len() / 4;
    let mut from = 0;
    while from < pixels {
        let to = (from + BLOCK).min(pixels);
        pack_block(src, dst, from, to);
        from = to;
    }
}

/// Packs the pixels `from` to before `to`, by the loop that they are fit for. Bytes behind them change.
fn pack_block(src: &[u8], dst: &mut [u8], from: usize, to: usize)
    requires order { from ≤ to }
    requires room { to * 4 ≤ length src.now }
    requires space { to * 3 ≤ length dst.old }
    ensures done { (k : ℕ) → from * 3 ≤ k → k < to * 3 → slice_index dst.new k ≡ packed src.now k }
    ensures before { (k : ℕ) → k < from * 3 → slice_index dst.new k ≡ slice_index dst.old k }
{
    let (moved, opaque) = move_colours(src, dst, from, to);
    if opaque {
        pack_each(src, dst, moved, to);
    } else if alphas(src, from, to).1 == 0 {
        pack_hidden(src, dst, from, to);
    } else {
        pack_each(src, dst, from, to);
    }
}

/// Moves the colours of the pixels from `from` on, four at a time, as they are packed where all are opaque, and
/// answers before which pixel it ends and whether they are. The last ones before `to` may be left. Each four are
/// stored with four bytes too many, which the next store writes over.
fn move_colours(src: &[u8], dst: &mut [u8], from: usize, to: usize) -> (usize, bool)
    requires order { from ≤ to }
    requires room { to * 4 ≤ length src.now }
    ensures from { from ≤ result.0 }
    ensures within { result.0 ≤ to }
    ensures done { result.1 ≡ true → (k : ℕ) → from * 3 ≤ k → k < result.0 * 3 → slice_index dst.new k ≡ packed src.now k }
    ensures before { (k : ℕ) → k < from * 3 → slice_index dst.new k ≡ slice_index dst.old k }
{
    let mut common = u8x16::splat(255);
    let mut p = from;
    while p + 4 <= to && p * 3 + 16 <= dst.len() {
        let four = u8x16::from_slice(&src[p * 4..]);
        common = common & four;
        let colours = four.swizzle([0, 1, 2, 4, 5, 6, 8, 9, 10, 12, 13, 14, 3, 7, 11, 15]);
        colours.copy_to_slice(&mut dst[p * 3..]);
        p += 4;
    }
    let bits = common.to_array();
    let alpha = bits[3].min(bits[7]).min(bits[11]).min(bits[15]);
    (p, alpha == 255)
}

/// Packs the pixels `from` to before `to`, of which none shows.
fn pack_hidden(_src: &[u8], dst: &mut [u8], from: usize, to: usize)
    requires order { from ≤ to }
    requires space { to * 3 ≤ length dst.old }
    requires hidden { (p : ℕ) → from ≤ p → p < to → slice_index _src.now (p * 4 + 3) ≡ 0 }
    ensures done { (k : ℕ) → from * 3 ≤ k → k < to * 3 → slice_index dst.new k ≡ packed _src.now k }
    ensures before { (k : ℕ) → k < from * 3 → slice_index dst.new k ≡ slice_index dst.old k }
{
    for k in from * 3..to * 3 {
        dst[k] = 0;
    }
}

/// Packs the pixels `from` to before `to`, whatever their alphas are.
fn pack_each(src: &[u8], dst: &mut [u8], from: usize, to: usize)
    requires order { from ≤ to }
    requires room { to * 4 ≤ length src.now }
    requires space { to * 3 ≤ length dst.old }
    ensures done { (k : ℕ) → from * 3 ≤ k → k < to * 3 → slice_index dst.new k ≡ packed src.now k }
    ensures before { (k : ℕ) → k < from * 3 → slice_index dst.new k ≡ slice_index dst.old k }
{
    for p in from..to {
        let pixel = pixel_at(src, p * 4);
        dst[p * 3] = on_black(pixel.r, pixel.a);
        dst[p * 3 + 1] = on_black(pixel.g, pixel.a);
        dst[p * 3 + 2] = on_black(pixel.b, pixel.a);
    }
}

/// A colour laid over black. The two divisions by 256 are one by 255.
fn on_black(colour: u8, alpha: u8) -> u8
    ensures { result ≡ on_black colour alpha }
{
    let product = colour as u32 * alpha as u32 + 128;
    ((product + product / 256) / 256) as u8
}
