//! A picture made darker or brighter.
//!
//! Where it is made darker each byte is a share of what it was, an alpha too: its share leaves it as it is.

ghost use Rattle.std.specs.Prelude.{◌≡◌, ℕ, ◌+◌, ◌-◌, ◌*◌, ◌/◌, ◌%◌, ◌<◌, ◌≤◌, ◌==◌, if◌then◌else◌, length, slice_index};
ghost use Rattle.mlt_base.specs.Mixing.{table, lit, scaled};

use crate::pixel::{Pixel, pixel_at, put_pixel};
use crate::share::share_of;
use mlt_base::Q16;

/// How many bytes a block has that is made darker.
const BLOCK: usize = 256;

/// The share at which each byte stays.
const WHOLE: u16 = 65535;

/// The level from which on each colour but 0 is 255: it is 256 times as bright.
const GREATEST: u32 = 16777216;

/// Multiplies each colour by `level`, to the nearest whole number and at most 255; alpha stays. The
/// slice has four bytes a pixel.
pub fn scale(dst: &mut [u8], level: Q16)
    requires whole { length dst.old % 4 ≡ 0 }
    ensures { dst.new ≡ table (length dst.old) (scaled level.0 dst.old) }
{
    if level.0 < 65536 {
        darken(dst, level.0 as u16);
    } else if level.0 > 65536 {
        brighten(dst, level.0.min(GREATEST));
    }
}

/// Multiplies each colour by a level below 65536.
fn darken(dst: &mut [u8], level: u16)
    ensures { (k : ℕ) → k < length dst.old → slice_index dst.new k ≡ scaled level dst.old k }
{
    let shares = shares_of(level);
    let mut from = 0;
    while from < dst.len() {
        let to = (from + BLOCK).min(dst.len());
        darken_block(dst, &shares, from, to);
        from = to;
    }
}

/// The shares of the bytes of a block.
fn shares_of(level: u16) -> [u16; BLOCK]
    ensures { (k : ℕ) → k < 256 → slice_index result k ≡ (if k % 4 == 3 then 65535 else level) }
{
    let mut shares = [level; BLOCK];
    for p in 0..BLOCK / 4 {
        shares[p * 4 + 3] = WHOLE;
    }
    shares
}

/// Takes of each byte from `from` to before `to` its share.
fn darken_block(dst: &mut [u8], shares: &[u16; BLOCK], from: usize, to: usize)
    requires order { from ≤ to }
    requires room { to ≤ length dst.old }
    requires few { to ≤ from + 256 }
    ensures done { (k : ℕ) → from ≤ k → k < to → slice_index dst.new k ≡ (slice_index dst.old k * slice_index shares.now (k - from) + 32768) / 65536 }
    ensures before { (k : ℕ) → k < from → slice_index dst.new k ≡ slice_index dst.old k }
    ensures after { (k : ℕ) → to ≤ k → slice_index dst.new k ≡ slice_index dst.old k }
{
    for i in from..to {
        dst[i] = share_of(dst[i], shares[i - from]);
    }
}

/// Multiplies each colour by a level that isn't above the greatest.
fn brighten(dst: &mut [u8], level: u32)
    requires whole { length dst.old % 4 ≡ 0 }
    requires fits { level ≤ 16777216 }
    ensures { (k : ℕ) → k < length dst.old → slice_index dst.new k ≡ scaled level dst.old k }
{
    for p in 0..dst.len() / 4 {
        let old = pixel_at(dst, p * 4);
        let red = lit(level, old.r);
        let green = lit(level, old.g);
        let blue = lit(level, old.b);
        let new = Pixel {
            r: red,
            g: green,
            b: blue,
            a: old.a,
        };
        put_pixel(dst, p * 4, new);
    }
}

/// A colour at a level.
fn lit(level: u32, colour: u8) -> u8
    requires { level ≤ 16777216 }
    ensures { result ≡ lit level colour }
{
    ((colour as u32 * level + 32768) / 65536).min(255) as u8
}
