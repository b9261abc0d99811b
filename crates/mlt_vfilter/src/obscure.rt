//! Obscure: squares of one colour.

ghost use Rattle.std.specs.Prelude.{◌≡◌, ℕ, ◌+◌, ◌-◌, ◌*◌, ◌/◌, ◌%◌, ◌<◌, ◌≤◌, length, slice_index};
ghost use Rattle.mlt_base.specs.Mixing.{table};
ghost use Rattle.mlt_tree.specs.Filters.{obscure};
ghost use Rattle.mlt_vfilter.specs.Places.{runs};

use mlt_kernel::pixel::{pixel_at, put_pixel};

/// Gives each square of `size` by `size` pixels, at least 1, the colour of its first pixel; squares begin
/// at the top and the left. The picture has `width` pixels a row, 1 to 4096, and whole rows, at most 4096.
pub fn obscure(picture: &mut [u8], width: u32, size: u32)
    requires width { 1 ≤ width }
    requires rows { length picture.old % (width * 4) ≡ 0 }
    requires few { length picture.old / (width * 4) ≤ 4096 }
    requires size { 1 ≤ size }
    ensures { picture.new ≡ table (length picture.old) (obscure size width picture.old) }
{
    let row_bytes = width as usize * 4;
    for y in 0..picture.len() / row_bytes {
        obscure_row(picture, y, row_bytes, size as usize);
    }
}

/// Obscures row `y`, of rows that are obscured before it and not yet from it on: the first row of a square is
/// made runs of pixels, and another one is as the row before it.
fn obscure_row(picture: &mut [u8], y: usize, row_bytes: usize, size: usize)
    requires some { 1 ≤ size }
    requires pixels { row_bytes % 4 ≡ 0 }
    requires room { y * row_bytes + row_bytes ≤ length picture.old }
    ensures first { y % size ≡ 0 → (i : ℕ) → i < row_bytes → slice_index picture.new (y * row_bytes + i) ≡ slice_index picture.old (y * row_bytes + (i / 4 - i / 4 % size) * 4 + i % 4) }
    ensures next { 0 < y % size → (i : ℕ) → i < row_bytes → slice_index picture.new (y * row_bytes + i) ≡ slice_index picture.old ((y - 1) * row_bytes + i) }
    ensures before { (k : ℕ) → k < y * row_bytes → slice_index picture.new k ≡ slice_index picture.old k }
    ensures behind { (k : ℕ) → y * row_bytes + row_bytes ≤ k → slice_index picture.new k ≡ slice_index picture.old k }
{
    let at = y * row_bytes;
    if y % size == 0 {
        make_runs(&mut picture[at..at + row_bytes], size);
    } else {
        let (done, rest) = picture.split_at_mut(at);
        rest[..row_bytes].copy_from_slice(&done[at - row_bytes..]);
    }
}

/// Makes a row runs of `size` pixels, each of the colour of its first one.
fn make_runs(row: &mut [u8], size: usize)
    requires some { 1 ≤ size }
    requires pixels { length row.old % 4 ≡ 0 }
    ensures { row.new ≡ table (length row.old) (runs size row.old) }
{
    let pixels = row.len() / 4;
    let mut from = 0;
    while from < pixels {
        let more = size.min(pixels - from);
        make_run(row, from, from + more);
        from += more;
    }
}

/// Gives the pixels `from` to before `to` the colour of the first one.
fn make_run(row: &mut [u8], from: usize, to: usize)
    requires order { from < to }
    requires room { to * 4 ≤ length row.old }
    ensures done { (k : ℕ) → from * 4 ≤ k → k < to * 4 → slice_index row.new k ≡ slice_index row.old (from * 4 + k % 4) }
    ensures before { (k : ℕ) → k < from * 4 → slice_index row.new k ≡ slice_index row.old k }
    ensures after { (k : ℕ) → to * 4 ≤ k → slice_index row.new k ≡ slice_index row.old k }
{
    let colour = pixel_at(row, from * 4);
    for p in from..to {
        put_pixel(row, p * 4, colour);
    }
}
