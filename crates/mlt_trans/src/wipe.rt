//! Luma with a map: from one picture to the other, the dark parts of the map first.
//!
//! A row goes by blocks of pixels: their shares are looked up first, so that the loop that mixes has no table in it.

ghost use Rattle.std.specs.Prelude.{◌≡◌, ℕ, ◌+◌, ◌-◌, ◌*◌, ◌/◌, ◌%◌, ◌<◌, ◌≤◌, length, slice_index, Some};
ghost use Rattle.mlt_base.specs.Mixing.{table, blended};
ghost use Rattle.mlt_tree.specs.Merges.{luma, share_at};

use crate::matte::lightness;
use crate::shares::{Shares, WHOLE};
use mlt_kernel::Pixel;
use mlt_kernel::pixel::{pixel_at, put_pixel};

/// How many pixels a block has.
const BLOCK: usize = 256;

/// Mixes a row with another one, by the share of each pixel of the map's row.
pub(crate) fn wipe_row(row: &mut [u8], other: &[u8], map: &[u8], shares: &Shares)
    requires same { length other.now ≡ length row.old }
    requires mapped { length map.now ≡ length row.old }
    requires pixels { length row.old % 4 ≡ 0 }
    ensures { row.new ≡ table (length row.old) (luma (Some map.now) shares.now.softness shares.now.q row.old other.now) }
{
    let mut found = [0; BLOCK];
    let pixels = row.len() / 4;
    let mut from = 0;
    while from < pixels {
        let more = BLOCK.min(pixels - from);
        wipe_block(row, other, map, shares, &mut found[..more], from);
        from += more;
    }
}

/// Mixes as many pixels from `from` on as there is room for their shares, where any has one.
fn wipe_block(
    row: &mut [u8],
    other: &[u8],
    map: &[u8],
    shares: &Shares,
    found: &mut [u32],
    from: usize,
)
    requires same { length other.now ≡ length row.old }
    requires mapped { length map.now ≡ length row.old }
    requires room { (from + length found.old) * 4 ≤ length row.old }
    ensures done { (k : ℕ) → from * 4 ≤ k → k < (from + length found.old) * 4 → slice_index row.new k ≡ luma (Some map.now) shares.now.softness shares.now.q row.old other.now k }
    ensures before { (k : ℕ) → k < from * 4 → slice_index row.new k ≡ slice_index row.old k }
    ensures after { (k : ℕ) → (from + length found.old) * 4 ≤ k → slice_index row.new k ≡ slice_index row.old k }
{
    look_up(map, shares, found, from);
    let (least, greatest) = least_and_greatest(found);
    if least == WHOLE {
        let at = from * 4;
        let to = at + found.len() * 4;
        row[at..to].copy_from_slice(&other[at..to]);
    } else if greatest > 0 {
        turn_each(row, other, found, from);
    }
}

/// Looks up the shares of the map's pixels from `from` on.
fn look_up(map: &[u8], shares: &Shares, found: &mut [u32], from: usize)
    requires room { (from + length found.old) * 4 ≤ length map.now }
    ensures each { (j : ℕ) → j < length found.old → slice_index found.new j ≡ share_at shares.now.softness shares.now.q map.now ((from + j) * 4) }
    ensures most { (j : ℕ) → j < length found.old → slice_index found.new j ≤ 65536 }
{
    for j in 0..found.len() {
        found[j] = shares.at(lightness(pixel_at(map, (from + j) * 4)));
    }
}

/// The least share of some and the greatest; of none, the whole and 0.
fn least_and_greatest(shares: &[u32]) -> (u32, u32)
    ensures least { (j : ℕ) → j < length shares.now → result.0 ≤ slice_index shares.now j }
    ensures greatest { (j : ℕ) → j < length shares.now → slice_index shares.now j ≤ result.1 }
{
    let mut least = WHOLE;
    let mut greatest = 0;
    for j in 0..shares.len() {
        let share = shares[j];
        least = least.min(share);
        greatest = greatest.max(share);
    }
    (least, greatest)
}

/// Mixes the pixels from `from` on, each by its share.
fn turn_each(row: &mut [u8], other: &[u8], found: &[u32], from: usize)
    requires same { length other.now ≡ length row.old }
    requires room { (from + length found.now) * 4 ≤ length row.old }
    requires most { (j : ℕ) → j < length found.now → slice_index found.now j ≤ 65536 }
    ensures done { (k : ℕ) → from * 4 ≤ k → k < (from + length found.now) * 4 → slice_index row.new k ≡ blended (slice_index found.now (k / 4 - from)) (slice_index row.old k) (slice_index other.now k) }
    ensures before { (k : ℕ) → k < from * 4 → slice_index row.new k ≡ slice_index row.old k }
    ensures after { (k : ℕ) → (from + length found.now) * 4 ≤ k → slice_index row.new k ≡ slice_index row.old k }
{
    for j in 0..found.len() {
        let share = found[j];
        let old = pixel_at(row, (from + j) * 4);
        let new = pixel_at(other, (from + j) * 4);
        let red = blended(share, old.r, new.r);
        let green = blended(share, old.g, new.g);
        let blue = blended(share, old.b, new.b);
        let alpha = blended(share, old.a, new.a);
        let pixel = Pixel {
            r: red,
            g: green,
            b: blue,
            a: alpha,
        };
        put_pixel(row, (from + j) * 4, pixel);
    }
}

/// A byte of both, to the nearest whole number.
fn blended(share: u32, x: u8, z: u8) -> u8
    requires { share ≤ 65536 }
    ensures { result ≡ blended share x z }
{
    ((x as u32 * (65536 - share) + z as u32 * share + 32768) / 65536) as u8
}
