//! A pixel of a picture, read and written as one word.
//!
//! A loop that reads a pixel by [`pixel_at`] and writes it by [`put_pixel`] has one load and one store
//! for it, so that the compiler makes it go over several pixels at a time.

ghost use Rattle.std.specs.Prelude.{◌≡◌, ◌⊎◌, ℕ, ◌+◌, ◌*◌, ◌/◌, ◌%◌, ◌<◌, ◌≤◌, length, slice_index};
ghost use Rattle.mlt_kernel.specs.Alphas.{HasAlpha};
ghost use Rattle.mlt_kernel.specs.Words.{word_of, four};

use std::simd::{u8x4, u32x1};

/// A pixel with straight alpha, each channel 0 to 255.
#[derive(Clone, Copy, Debug, PartialEq, Eq)]
pub struct Pixel {
    pub r: u8,
    pub g: u8,
    pub b: u8,
    pub a: u8,
}

/// The word of the four bytes from `at` on, the least significant first.
#[inline(always)]
pub fn word_at(xs: &[u8], at: usize) -> u32
    requires { at + 4 ≤ length xs.now }
    ensures { result ≡ word_of xs.now at }
{
    let [word] = u32x1::from_le_bytes(u8x4::from_slice(&xs[at..])).to_array();
    word
}

/// Writes a word to the four bytes from `at` on, the least significant first.
#[inline(always)]
pub fn put_word(xs: &mut [u8], at: usize, word: u32)
    requires { at + 4 ≤ length xs.old }
    ensures { xs.new ≡ four xs.old at (word % 256) (word / 256 % 256) (word / 65536 % 256) (word / 16777216) }
{
    u32x1::from_array([word])
        .to_le_bytes()
        .copy_to_slice(&mut xs[at..]);
}

/// The pixel whose bytes stand from `at` on.
#[inline(always)]
pub fn pixel_at(xs: &[u8], at: usize) -> Pixel
    requires { at + 4 ≤ length xs.now }
    ensures r { result.r ≡ slice_index xs.now at }
    ensures g { result.g ≡ slice_index xs.now (at + 1) }
    ensures b { result.b ≡ slice_index xs.now (at + 2) }
    ensures a { result.a ≡ slice_index xs.now (at + 3) }
{
    let word = word_at(xs, at);
    Pixel {
        r: (word % 256) as u8,
        g: (word / 256 % 256) as u8,
        b: (word / 65536 % 256) as u8,
        a: (word / 16777216) as u8,
    }
}

/// Writes a pixel to the four bytes from `at` on.
#[inline(always)]
pub fn put_pixel(xs: &mut [u8], at: usize, pixel: Pixel)
    requires { at + 4 ≤ length xs.old }
    ensures { xs.new ≡ four xs.old at pixel.r pixel.g pixel.b pixel.a }
{
    let colours = pixel.r as u32 + pixel.g as u32 * 256 + pixel.b as u32 * 65536;
    put_word(xs, at, colours + pixel.a as u32 * 16777216);
}

/// The least and the greatest alpha of the pixels `from` to before `to`; of none, 255 and 0.
pub fn alphas(xs: &[u8], from: usize, to: usize) -> (u8, u8)
    requires order { from ≤ to }
    requires room { to * 4 ≤ length xs.now }
    ensures least { (p : ℕ) → from ≤ p → p < to → result.0 ≤ slice_index xs.now (p * 4 + 3) }
    ensures greatest { (p : ℕ) → from ≤ p → p < to → slice_index xs.now (p * 4 + 3) ≤ result.1 }
    ensures least_there { (result.0 ≡ 255) ⊎ HasAlpha xs.now from to result.0 }
    ensures greatest_there { (result.1 ≡ 0) ⊎ HasAlpha xs.now from to result.1 }
    ensures opaque { result.0 ≡ 255 → (p : ℕ) → from ≤ p → p < to → slice_index xs.now (p * 4 + 3) ≡ 255 }
    ensures clear { result.1 ≡ 0 → (p : ℕ) → from ≤ p → p < to → slice_index xs.now (p * 4 + 3) ≡ 0 }
{
    let mut least = 255;
    let mut greatest = 0;
    for p in from..to {
        let alpha = pixel_at(xs, p * 4).a;
        least = least.min(alpha);
        greatest = greatest.max(alpha);
    }
    (least, greatest)
}
