//! Pictures stretched to a width and a height.
//!
//! The value at a place is mixed across first, between two pixels of a row, and then down, between two
//! rows. So the places along a row are found once for all rows, and a row of the source that is mixed
//! across serves all rows that lie beside it.

ghost use Rattle.std.specs.Prelude.{◌≡◌, ℕ, ◌+◌, ◌-◌, ◌*◌, ◌/◌, ◌%◌, ◌<◌, ◌≤◌, length, slice_index};
ghost use Rattle.mlt_base.specs.Mixing.{table};
ghost use Rattle.mlt_base.specs.Fitting.{along, next, weighed, across, down, stretched_at};
ghost use Rattle.mlt_base.specs.GeometryView.{IsPlacement};
ghost use Rattle.mlt_image.specs.Kept.{channels, across_at};

use mlt_base::Geometry;
use std::simd::u8x4;

/// The place of pixel `at` of so many, along so many pixels of a source, in 65536ths of a pixel.
pub fn along(pixels: u32, taken: u32, at: u32) -> u32
    requires some { 1 ≤ pixels }
    requires few { pixels ≤ 4096 }
    requires within { at < taken }
    requires small { taken ≤ 4096 }
    ensures value { result ≡ along pixels taken at }
    ensures most { result ≤ (pixels - 1) * 65536 }
{
    let middle = (2 * u64::from(at) + 1) * u64::from(pixels) * 65536 / (2 * u64::from(taken));
    let last = u64::from(pixels - 1) * 65536;
    middle.saturating_sub(32768).min(last) as u32
}

/// The places of as many pixels as there is room for, at most 4096, along so many pixels of a source, 1 to 4096.
pub fn places(pixels: u32, out: &mut [u32])
    requires some { 1 ≤ pixels }
    requires few { pixels ≤ 4096 }
    requires small { length out.old ≤ 4096 }
    ensures { out.new ≡ table (length out.old) (along pixels (length out.old)) }
{
    let taken = out.len() as u32;
    for at in 0..out.len() {
        out[at] = along(pixels, taken, at as u32);
    }
}

/// Mixes row `y` of a source across, at places that don't lie behind its last pixel. The source has rows
/// of `width` pixels; four values a place come out, in 65536ths.
pub fn across(pixels: &[u8], width: usize, y: usize, places: &[u32], out: &mut [u32])
    requires some { 1 ≤ width }
    requires row { (y * width + width) * 4 ≤ length pixels.now }
    requires inside { (u : ℕ) → u < length places.now → slice_index places.now u ≤ (width - 1) * 65536 }
    requires room { length out.old ≡ length places.now * 4 }
    ensures { out.new ≡ table (length out.old) (across_at pixels.now width places.now y) }
{
    for u in 0..places.len() {
        let [red, green, blue, alpha] = across_one(pixels, width, y, places[u]);
        out[u * 4] = red;
        out[u * 4 + 1] = green;
        out[u * 4 + 2] = blue;
        out[u * 4 + 3] = alpha;
    }
}

/// Mixes row `y` of a source across, at one place: four values.
#[inline(always)]
fn across_one(pixels: &[u8], width: usize, y: usize, place: u32) -> [u32; 4]
    requires some { 1 ≤ width }
    requires row { (y * width + width) * 4 ≤ length pixels.now }
    requires inside { place ≤ (width - 1) * 65536 }
    ensures value { result ≡ channels (across pixels.now width place y) }
    ensures most { (c : ℕ) → slice_index result c ≤ 16711680 }
{
    let left = values_at(pixels, (y * width + place as usize / 65536) * 4);
    let right = values_at(pixels, (y * width + next(width, place)) * 4);
    let share = place % 65536;
    [
        weighed(share, left[0], right[0]),
        weighed(share, left[1], right[1]),
        weighed(share, left[2], right[2]),
        weighed(share, left[3], right[3]),
    ]
}

/// The four bytes from `at` on, each as a value of its own: four lanes of one load.
#[inline(always)]
fn values_at(bytes: &[u8], at: usize) -> [u32; 4]
    requires { at + 4 ≤ length bytes.now }
    ensures value { result ≡ channels (λ c. slice_index bytes.now (at + c)) }
    ensures most { (c : ℕ) → slice_index result c ≤ 255 }
{
    u8x4::from_slice(&bytes[at..]).cast::<u32>().to_array()
}

/// The pixel that follows a place, of so many; the last one has no other behind it.
fn next(pixels: usize, place: u32) -> usize
    requires { 1 ≤ pixels }
    ensures value { result ≡ next pixels place }
    ensures within { result < pixels }
{
    (place as usize / 65536 + 1).min(pixels - 1)
}

/// A share of `z` and the rest of `x`, in 65536ths.
fn weighed(share: u32, x: u32, z: u32) -> u32
    requires share { share ≤ 65536 }
    requires first { x ≤ 255 }
    requires second { z ≤ 255 }
    ensures value { result ≡ weighed share x z }
    ensures most { result ≤ 16711680 }
{
    x * (65536 - share) + z * share
}

/// Mixes down between values of two rows, at most 255 * 65536, to the nearest bytes. `share` is that of
/// `bottom` in 65536 parts. The slices are of one length.
pub fn down(top: &[u32], bottom: &[u32], share: u32, out: &mut [u8])
    requires top { length top.now ≡ length out.old }
    requires bottom { length bottom.now ≡ length out.old }
    requires share { share ≤ 65536 }
    requires most_top { (k : ℕ) → k < length top.now → slice_index top.now k ≤ 16711680 }
    requires most_bottom { (k : ℕ) → k < length bottom.now → slice_index bottom.now k ≤ 16711680 }
    ensures { out.new ≡ table (length out.old) (λ k. down share (slice_index top.now k) (slice_index bottom.now k)) }
{
    for k in 0..out.len() {
        out[k] = down_one(share, top[k], bottom[k]);
    }
}

/// A byte between two values, to the nearest whole number.
fn down_one(share: u32, top: u32, bottom: u32) -> u8
    requires share { share ≤ 65536 }
    requires top { top ≤ 16711680 }
    requires bottom { bottom ≤ 16711680 }
    ensures { result ≡ down share top bottom }
{
    let mixed = u64::from(top) * u64::from(65536 - share) + u64::from(bottom) * u64::from(share);
    ((mixed + 2147483648) / 4294967296) as u8
}

/// The pixel at column `x` of row `y` of a source stretched to a geometry's width and height, each 1 to 4096. The
/// source has `width` by `height` pixels, each 1 to 4096, and its slice four bytes for each.
pub fn stretch_at(
    src: &[u8],
    width: u32,
    height: u32,
    geometry: &Geometry,
    x: u32,
    y: u32,
) -> [u8; 4]
    requires width_from { 1 ≤ width }
    requires width_to { width ≤ 4096 }
    requires height_from { 1 ≤ height }
    requires height_to { height ≤ 4096 }
    requires sized { length src.now ≡ width * height * 4 }
    requires range { IsPlacement geometry.now }
    requires column { x < geometry.now.width }
    requires row { y < geometry.now.height }
    ensures { result ≡ channels (stretched_at (record { width = width; height = height; pixels = src.now }) geometry.now.width geometry.now.height x y) }
{
    let column = along(width, geometry.width, x);
    let row = along(height, geometry.height, y);
    let top = across_one(src, width as usize, row as usize / 65536, column);
    let bottom = across_one(src, width as usize, next(height as usize, row), column);
    let share = row % 65536;
    [
        down_one(share, top[0], bottom[0]),
        down_one(share, top[1], bottom[1]),
        down_one(share, top[2], bottom[2]),
        down_one(share, top[3], bottom[3]),
    ]
}
