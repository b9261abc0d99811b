//! Crop: transparent black at the sides.

ghost use Rattle.std.specs.Prelude.{◌≡◌, ℕ, ◌%◌, length, slice_index};
ghost use Rattle.mlt_base.specs.Mixing.{table};
ghost use Rattle.mlt_tree.specs.Filters.{is_cut};
ghost use Rattle.mlt_vfilter.specs.Places.{cut_columns, cut_row};

/// How many columns and rows are cut at each side.
#[derive(Clone, Copy, Debug)]
pub struct Sides {
    pub left: u32,
    pub right: u32,
    pub top: u32,
    pub bottom: u32,
}

/// Whether a place of a side is one of the first so many, or of the last so many.
fn is_cut(front: u32, back: u32, side: u32, at: u32) -> bool
    ensures { result ≡ is_cut front back side at }
{
    at < front || at >= side.saturating_sub(back)
}

/// Makes bytes transparent black.
fn clear(bytes: &mut [u8])
    ensures { (k : ℕ) → slice_index bytes.new k ≡ 0 }
{
    bytes.fill(0);
}

/// Clears the first and the last pixels of a row, and all at once where it has no others.
fn clear_columns(row: &mut [u8], left: usize, right: usize)
    requires { length row.old % 4 ≡ 0 }
    ensures { row.new ≡ table (length row.old) (cut_columns left right row.old) }
{
    let kept = (row.len() / 4).saturating_sub(right);
    if left < kept {
        let (front, rest) = row.split_at_mut(left * 4);
        let (_, back) = rest.split_at_mut((kept - left) * 4);
        clear(front);
        clear(back);
    } else {
        clear(row);
    }
}

/// Makes the pixels at the sides transparent black, in the row of a number, of a picture of `rows` rows.
pub fn crop(sides: Sides, rows: u32, number: u32, row: &mut [u8])
    requires { length row.old % 4 ≡ 0 }
    ensures { row.new ≡ table (length row.old) (cut_row sides.left sides.right sides.top sides.bottom rows number row.old) }
{
    if is_cut(sides.top, sides.bottom, rows, number) {
        clear(row);
    } else {
        clear_columns(row, sides.left as usize, sides.right as usize);
    }
}
