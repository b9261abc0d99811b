//! One picture laid over another.
//!
//! A picture goes by blocks of pixels, so that what a block is like chooses its loop: where both
//! pictures have partial alphas each pixel takes three divisions, and mostly they haven't.

ghost use Rattle.std.specs.Prelude.{◌≡◌, ℕ, ◌+◌, ◌*◌, ◌/◌, ◌%◌, ◌<◌, ◌≤◌, length, slice_index};
ghost use Rattle.mlt_base.specs.Mixing.{table, strength, weight, laid, laid_channel, laid_over};

use crate::pixel::{Pixel, alphas, pixel_at, put_pixel};

/// How many pixels a block has.
const BLOCK: usize = 256;

/// Where neither picture can be seen: transparent black.
const CLEAR: Pixel = Pixel {
    r: 0,
    g: 0,
    b: 0,
    a: 0,
};

/// Lays `src` over `dst` at an opacity in hundredths, at most 100. A pixel where neither can be seen
/// is transparent black afterwards. The slices are of one length, and have four bytes a pixel.
pub fn over(dst: &mut [u8], src: &[u8], opacity: u8)
    requires same { length dst.old ≡ length src.now }
    requires whole { length dst.old % 4 ≡ 0 }
    requires hundredths { opacity ≤ 100 }
    ensures { dst.new ≡ table (length dst.old) (laid_over opacity dst.old src.now) }
{
    let pixels = dst.len() / 4;
    let mut from = 0;
    while from < pixels {
        let to = (from + BLOCK).min(pixels);
        over_block(dst, src, opacity, from, to);
        from = to;
    }
}

/// Lays over the pixels `from` to before `to`, by the loop that they are fit for.
fn over_block(dst: &mut [u8], src: &[u8], opacity: u8, from: usize, to: usize)
    requires same { length dst.old ≡ length src.now }
    requires order { from ≤ to }
    requires room { to * 4 ≤ length dst.old }
    requires hundredths { opacity ≤ 100 }
    ensures done { (k : ℕ) → from * 4 ≤ k → k < to * 4 → slice_index dst.new k ≡ laid_over opacity dst.old src.now k }
    ensures before { (k : ℕ) → k < from * 4 → slice_index dst.new k ≡ slice_index dst.old k }
    ensures after { (k : ℕ) → to * 4 ≤ k → slice_index dst.new k ≡ slice_index dst.old k }
{
    let (least, greatest) = alphas(src, from, to);
    if opacity == 100 && least == 255 {
        copy_pixels(dst, src, from, to);
    } else if alphas(dst, from, to).0 < 255 {
        over_each(dst, src, opacity, from, to);
    } else if greatest > 0 {
        over_opaque(dst, src, opacity, from, to);
    }
}

/// Copies the pixels `from` to before `to`.
fn copy_pixels(dst: &mut [u8], src: &[u8], from: usize, to: usize)
    requires same { length dst.old ≡ length src.now }
    requires order { from ≤ to }
    requires room { to * 4 ≤ length dst.old }
    ensures done { (k : ℕ) → from * 4 ≤ k → k < to * 4 → slice_index dst.new k ≡ slice_index src.now k }
    ensures before { (k : ℕ) → k < from * 4 → slice_index dst.new k ≡ slice_index dst.old k }
    ensures after { (k : ℕ) → to * 4 ≤ k → slice_index dst.new k ≡ slice_index dst.old k }
{
    dst[from * 4..to * 4].copy_from_slice(&src[from * 4..to * 4]);
}

/// Lays over the pixels `from` to before `to`, whatever their alphas are.
fn over_each(dst: &mut [u8], src: &[u8], opacity: u8, from: usize, to: usize)
    requires same { length dst.old ≡ length src.now }
    requires order { from ≤ to }
    requires room { to * 4 ≤ length dst.old }
    requires hundredths { opacity ≤ 100 }
    ensures done { (k : ℕ) → from * 4 ≤ k → k < to * 4 → slice_index dst.new k ≡ laid_over opacity dst.old src.now k }
    ensures before { (k : ℕ) → k < from * 4 → slice_index dst.new k ≡ slice_index dst.old k }
    ensures after { (k : ℕ) → to * 4 ≤ k → slice_index dst.new k ≡ slice_index dst.old k }
{
    for p in from..to {
        let low = pixel_at(dst, p * 4);
        let top = pixel_at(src, p * 4);
        let laid = lay_pixel(low, top, opacity);
        put_pixel(dst, p * 4, laid);
    }
}

/// Lays over the pixels `from` to before `to`, where those below are opaque.
fn over_opaque(dst: &mut [u8], src: &[u8], opacity: u8, from: usize, to: usize)
    requires same { length dst.old ≡ length src.now }
    requires order { from ≤ to }
    requires room { to * 4 ≤ length dst.old }
    requires hundredths { opacity ≤ 100 }
    requires opaque { (p : ℕ) → from ≤ p → p < to → slice_index dst.old (p * 4 + 3) ≡ 255 }
    ensures done { (k : ℕ) → from * 4 ≤ k → k < to * 4 → slice_index dst.new k ≡ laid_over opacity dst.old src.now k }
    ensures before { (k : ℕ) → k < from * 4 → slice_index dst.new k ≡ slice_index dst.old k }
    ensures after { (k : ℕ) → to * 4 ≤ k → slice_index dst.new k ≡ slice_index dst.old k }
{
    for p in from..to {
        let low = pixel_at(dst, p * 4);
        let top = pixel_at(src, p * 4);
        let laid = lay_opaque(low, top, opacity);
        put_pixel(dst, p * 4, laid);
    }
}

/// The pixel `low` with `top` laid over it.
fn lay_pixel(low: Pixel, top: Pixel, opacity: u8) -> Pixel
    requires { opacity ≤ 100 }
    ensures r { result.r ≡ laid_channel 0 low.a (strength top.a opacity) low.r top.r }
    ensures g { result.g ≡ laid_channel 1 low.a (strength top.a opacity) low.g top.g }
    ensures b { result.b ≡ laid_channel 2 low.a (strength top.a opacity) low.b top.b }
    ensures a { result.a ≡ laid_channel 3 low.a (strength top.a opacity) low.a top.a }
{
    let a = low.a;
    let b = strength(top.a, opacity);
    if a == 255 {
        lay_opaque(low, top, opacity)
    } else if b == 0 {
        if a == 0 { CLEAR } else { low }
    } else if b == 255 || a == 0 {
        Pixel { a: b, ..top }
    } else {
        let t = weight(a, b);
        Pixel {
            r: laid(t, a, b, low.r, top.r),
            g: laid(t, a, b, low.g, top.g),
            b: laid(t, a, b, low.b, top.b),
            a: ((t as u32 + 127) / 255) as u8,
        }
    }
}

/// The opaque pixel `low` with `top` laid over it.
#[inline(always)]
fn lay_opaque(low: Pixel, top: Pixel, opacity: u8) -> Pixel
    requires hundredths { opacity ≤ 100 }
    requires opaque { low.a ≡ 255 }
    ensures r { result.r ≡ laid_channel 0 low.a (strength top.a opacity) low.r top.r }
    ensures g { result.g ≡ laid_channel 1 low.a (strength top.a opacity) low.g top.g }
    ensures b { result.b ≡ laid_channel 2 low.a (strength top.a opacity) low.b top.b }
    ensures a { result.a ≡ laid_channel 3 low.a (strength top.a opacity) low.a top.a }
{
    let b = strength(top.a, opacity);
    Pixel {
        r: laid_on_opaque(b, low.r, top.r),
        g: laid_on_opaque(b, low.g, top.g),
        b: laid_on_opaque(b, low.b, top.b),
        a: 255,
    }
}

/// An alpha at an opacity. The product by 5243 and the division by 2^19 are one by 100.
fn strength(alpha: u8, opacity: u8) -> u8
    requires { opacity ≤ 100 }
    ensures { result ≡ strength alpha opacity }
{
    ((alpha as u32 * opacity as u32 + 50) * 5243 / 524288) as u8
}

/// The weight of alpha `a` below and alpha `b` above.
fn weight(a: u8, b: u8) -> u16
    ensures { result ≡ weight a b }
{
    255 * b as u16 + a as u16 * (255 - b as u16)
}

/// A colour `z` of alpha `b` over an opaque `x`. The two divisions by 256 are one by 255.
fn laid_on_opaque(b: u8, x: u8, z: u8) -> u8
    ensures { result ≡ laid 65025 255 b x z }
{
    let sum = z as u32 * b as u32 + x as u32 * (255 - b as u32) + 128;
    ((sum + sum / 256) / 256) as u8
}

/// A colour `z` of alpha `b` over `x` of alpha `a`, where `t` is their weight.
fn laid(t: u16, a: u8, b: u8, x: u8, z: u8) -> u8
    requires weight { t ≡ weight a b }
    requires some { 0 < t }
    ensures { result ≡ laid t a b x z }
{
    let above = z as u32 * (b as u32 * 255);
    let below = x as u32 * (a as u32 * (255 - b as u32));
    ((above + below + t as u32 / 2) / t as u32) as u8
}
