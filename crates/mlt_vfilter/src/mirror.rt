//! Mirror: left and right exchanged, or top and bottom.

ghost use Rattle.std.specs.Prelude.{◌≡◌, ℕ, ◌+◌, ◌-◌, ◌*◌, ◌/◌, ◌%◌, ◌<◌, ◌≤◌, length, slice_index};
ghost use Rattle.mlt_base.specs.Mixing.{table};
ghost use Rattle.mlt_vfilter.specs.Places.{turned, turned_row};

use mlt_kernel::pixel::{pixel_at, put_pixel};

/// Exchanges the pixels of a row with those that stand as far from its other end.
pub fn turn_row(row: &mut [u8])
    requires { length row.old % 4 ≡ 0 }
    ensures { row.new ≡ table (length row.old) (turned_row row.old) }
{
    let half = row.len() / 8 * 4;
    let (front, rest) = row.split_at_mut(half);
    let (_, back) = rest.split_at_mut(rest.len() - half);
    exchange_turned(front, back);
}

/// Exchanges the pixels of two slices of one length, the first ones of one with the last ones of the other.
#[inline(never)]
fn exchange_turned(front: &mut [u8], back: &mut [u8])
    requires same { length front.old ≡ length back.old }
    requires pixels { length front.old % 4 ≡ 0 }
    ensures front { (k : ℕ) → k < length front.old → slice_index front.new k ≡ turned (length front.old / 4) back.old k }
    ensures back { (k : ℕ) → k < length front.old → slice_index back.new k ≡ turned (length front.old / 4) front.old k }
{
    let pixels = front.len() / 4;
    for p in 0..pixels {
        let other = (pixels - 1 - p) * 4;
        let low = pixel_at(front, p * 4);
        let high = pixel_at(back, other);
        put_pixel(front, p * 4, high);
        put_pixel(back, other, low);
    }
}

/// Exchanges rows with those that stand as far from the picture's other end.
pub fn turn_rows(picture: &mut [u8], row_bytes: usize)
    requires some { 0 < row_bytes }
    requires whole { length picture.old % row_bytes ≡ 0 }
    ensures { (r i : ℕ) → r < length picture.old / row_bytes → i < row_bytes
        → slice_index picture.new (r * row_bytes + i) ≡ slice_index picture.old ((length picture.old / row_bytes - 1 - r) * row_bytes + i) }
{
    let rows = picture.len() / row_bytes;
    for y in 0..rows / 2 {
        exchange_rows(
            picture,
            y * row_bytes,
            (rows - 1 - y) * row_bytes,
            row_bytes,
        );
    }
}

/// Exchanges so many bytes from one place on with those from a later place on.
fn exchange_rows(picture: &mut [u8], upper: usize, lower: usize, row_bytes: usize)
    requires order { upper + row_bytes ≤ lower }
    requires room { lower + row_bytes ≤ length picture.old }
    ensures upper { (i : ℕ) → i < row_bytes → slice_index picture.new (upper + i) ≡ slice_index picture.old (lower + i) }
    ensures lower { (i : ℕ) → i < row_bytes → slice_index picture.new (lower + i) ≡ slice_index picture.old (upper + i) }
    ensures before { (k : ℕ) → k < upper → slice_index picture.new k ≡ slice_index picture.old k }
    ensures between { (k : ℕ) → upper + row_bytes ≤ k → k < lower → slice_index picture.new k ≡ slice_index picture.old k }
    ensures behind { (k : ℕ) → lower + row_bytes ≤ k → slice_index picture.new k ≡ slice_index picture.old k }
{
    let (above, below) = picture.split_at_mut(lower);
    above[upper..upper + row_bytes].swap_with_slice(&mut below[..row_bytes]);
}
