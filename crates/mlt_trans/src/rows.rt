//! Merges of pictures, row by row.

ghost use Rattle.std.specs.Prelude.{◌≡◌, ℕ, ◌+◌, ◌*◌, ◌<◌, ◌≤◌, List, length};
ghost use Rattle.std.specs.Option.{option_copied};
ghost use Rattle.mlt_slice.specs.Rows.{row_of, by_bytes};
ghost use Rattle.mlt_tree.specs.Merges.{map_of};
ghost use Rattle.mlt_tree.specs.Ranges.{IsMergeStep};
ghost use Rattle.mlt_trans.specs.Maps.{IsMap};
ghost use Rattle.mlt_trans.specs.Ready.{HasShares, HasColumns, Keeps};
ghost use Rattle.mlt_trans.specs.Rows.{merged_there, merged_row};

use crate::columns::Columns;
use crate::composite::{Layer, Room};
use crate::matte::matte_row;
use crate::shares::Shares;
use crate::wipe::wipe_row;
use mlt_kernel::dissolve::dissolve;
use mlt_slice::RowByRow;
use mlt_tree::MergeStep;
use std::marker::Model;

/// A merge into pictures of a size, as work on their rows: with the picture that is merged into them, that of the
/// merge's map, and what is worked out once for all rows. It keeps rows of a stretched picture from row to row.
#[derive(Drop)]
pub struct MergeRows<'a> {
    step: &'a MergeStep,
    b: &'a [u8],
    map: Option<&'a [u8]>,
    shares: &'a Shares,
    columns: &'a Columns,
    width: u32,
    height: u32,
}

impl<'a> Model for MergeRows<'a> {
    ghost use Rattle.std.specs.Option.{option_copied};
    ghost use Rattle.mlt_trans.specs.Ready.{Merge, IsReady};

    ghost Value = { Merge };

    ghost view = { λ m. record { step = m.step.now; map = option_copied m.map; width = m.width; height = m.height; other = m.b.now } };

    ghost invariant = { λ m. IsReady (record { step = m.step.now; map = option_copied m.map; width = m.width; height = m.height; other = m.b.now }) m.shares.now m.columns.now };
}

impl<'a> MergeRows<'a> {
    /// A merge of a picture `b` into pictures of `width` by `height` pixels, each 1 to 4096, which `b` has too. `map` is
    /// the picture of the merge's map, of the same size, where it takes one, else none. A merge by a map reads
    /// `shares`, and one with a rectangle `columns`.
    pub fn new(
        step: &'a MergeStep,
        b: &'a [u8],
        map: Option<&'a [u8]>,
        shares: &'a Shares,
        columns: &'a Columns,
        width: u32,
        height: u32,
    ) -> MergeRows<'a>
        requires range { IsMergeStep step.now }
        requires width { (1 ≤ width) × (width ≤ 4096) }
        requires height { (1 ≤ height) × (height ≤ 4096) }
        requires sized { length b.now ≡ height * (width * 4) }
        requires map { IsMap (map_of step.now) (length b.now) (option_copied map) }
        requires shares { HasShares step.now shares.now }
        requires columns { HasColumns step.now width columns.now }
        ensures { result ≡ record { step = step.now; map = option_copied map.entry; width = width; height = height; other = b.now } }
    {
        MergeRows {
            step,
            b,
            map,
            shares,
            columns,
            width,
            height,
        }
    }

    /// Merges into the row of a number that the pictures have.
    fn merge(&self, kept: &mut Option<Room>, number: u32, row: &mut [u8])
        requires number { number < self.now.height }
        requires bytes { length row.old ≡ self.now.width * 4 }
        requires keeps { Keeps self.now.step self.now.width self.now.height self.now.other kept.old }
        ensures keeps { Keeps self.now.step self.now.width self.now.height self.now.other kept.new }
        ensures row { row.new ≡ by_bytes (merged_there self.now.step self.now.map self.now.width self.now.height self.now.other) number row.old }
    {
        match self.step {
            MergeStep::Luma { q, .. } => {
                let other = row_at(self.b, number, row.len());
                match self.map {
                    None => dissolve(row, other, *q),
                    Some(map) => wipe_row(row, other, row_at(map, number, row.len()), self.shares),
                }
            }
            MergeStep::Composite { geometry } => {
                let layer = Layer {
                    b: self.b,
                    width: self.width,
                    height: self.height,
                    geometry: *geometry,
                };
                layer.lay(self.columns, kept, number, row);
            }
            MergeStep::Matte => matte_row(row, row_at(self.b, number, row.len())),
            MergeStep::Mix { .. } => {}
            MergeStep::Sum => {}
        }
    }
}

impl RowByRow for MergeRows<'_> {
    type Kept = Option<Room>;

    ghost row_bytes = { λ m. m.width * 4 };

    ghost makes = { λ m. by_bytes (merged_row m.step m.map m.width m.height m.other) };

    ghost keeps = { λ m. Keeps m.step m.width m.height m.other };

    fn begin(&self) -> Option<Room> {
        match self.step {
            MergeStep::Composite { geometry } => {
                if geometry.width == self.width && geometry.height == self.height {
                    None
                } else {
                    Some(Room::new(geometry, self.width))
                }
            }
            _ => None,
        }
    }

    fn row(&self, kept: &mut Option<Room>, number: u32, row: &mut [u8]) {
        if number < self.height {
            self.merge(kept, number, row);
        }
    }
}

/// The row of a number that a picture has, of so many bytes.
fn row_at(picture: &[u8], number: u32, row_bytes: usize) -> &[u8]
    requires few { row_bytes ≤ 16384 }
    requires within { (number + 1) * row_bytes ≤ length picture.now }
    ensures value { result.now ≡ row_of row_bytes number picture.now }
    ensures long { length result.now ≡ row_bytes }
{
    let at = number as usize * row_bytes;
    &picture[at..at + row_bytes]
}
