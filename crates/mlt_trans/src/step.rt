//! A merge at one position of two pictures.

ghost use Rattle.std.specs.Prelude.{◌≡◌, ◌*◌, ◌/◌, ◌%◌, ◌≤◌, length};
ghost use Rattle.std.specs.Option.{option_copied};
ghost use Rattle.mlt_tree.specs.Merges.{map_of, picture_merge};
ghost use Rattle.mlt_tree.specs.Ranges.{IsMergeStep};
ghost use Rattle.mlt_trans.specs.Columns.{kept_after};
ghost use Rattle.mlt_trans.specs.Maps.{IsMap};
ghost use Rattle.mlt_trans.specs.Ready.{HasColumns};

use crate::columns::{Columns, KeptColumns};
use crate::rows::MergeRows;
use crate::shares::Shares;
use mlt_slice::{Bands, run_from, run_rows};
use mlt_tree::MergeStep;

/// Merges a picture `b` into a picture `a`: from `a` to `b`, or `b` laid over `a`, or the lightness of `b` as the alpha
/// of `a`; a merge of sound leaves `a`. Both have `width` pixels a row, 1 to 4096, four bytes a pixel, and the same
/// number of whole rows, at most 4096. `map` is the picture of the merge's map, of the same size, where it takes
/// one, else none. `bands` goes through the rows. No memory is taken, and nothing is refused.
pub fn merge_pictures<B: Bands>(
    step: &MergeStep,
    a: &mut [u8],
    b: &[u8],
    map: Option<&[u8]>,
    width: u32,
    bands: &B,
)
    requires range { IsMergeStep step.now }
    requires width { (1 ≤ width) × (width ≤ 4096) }
    requires rows { (length a.old % (width * 4) ≡ 0) × (length a.old / (width * 4) ≤ 4096) }
    requires same { length b.now ≡ length a.old }
    requires map { IsMap (map_of step.now) (length a.old) (option_copied map) }
    ensures { a.new ≡ picture_merge step.now (option_copied map.entry) width a.old b.now }
{
    let columns = Columns::of(step, width);
    merge_by(step, a, b, map, &columns, width, bands);
}

/// The same as [`merge_pictures`], for merges that come again in frame after frame: the places of stretched columns
/// stay in `kept`, where those of the oldest width make room for new ones.
pub fn merge_again<B: Bands>(
    step: &MergeStep,
    a: &mut [u8],
    b: &[u8],
    map: Option<&[u8]>,
    width: u32,
    kept: &mut KeptColumns,
    bands: &B,
)
    requires range { IsMergeStep step.now }
    requires width { (1 ≤ width) × (width ≤ 4096) }
    requires rows { (length a.old % (width * 4) ≡ 0) × (length a.old / (width * 4) ≤ 4096) }
    requires same { length b.now ≡ length a.old }
    requires map { IsMap (map_of step.now) (length a.old) (option_copied map) }
    ensures picture { a.new ≡ picture_merge step.now (option_copied map.entry) width a.old b.now }
    ensures kept { kept.new ≡ kept_after step.now width kept.old }
{
    let place = kept.ask_for(step, width);
    merge_by(step, a, b, map, kept.at(place), width, bands);
}

/// The same as [`merge_again`] of the picture `from`, written to `a`, which is as long: as if it were copied there
/// first. Each row is read once.
pub fn merge_from<B: Bands>(
    step: &MergeStep,
    from: &[u8],
    a: &mut [u8],
    b: &[u8],
    map: Option<&[u8]>,
    width: u32,
    kept: &mut KeptColumns,
    bands: &B,
)
    requires range { IsMergeStep step.now }
    requires width { (1 ≤ width) × (width ≤ 4096) }
    requires rows { (length from.now % (width * 4) ≡ 0) × (length from.now / (width * 4) ≤ 4096) }
    requires same { (length b.now ≡ length from.now) × (length a.old ≡ length from.now) }
    requires map { IsMap (map_of step.now) (length from.now) (option_copied map) }
    ensures picture { a.new ≡ picture_merge step.now (option_copied map.entry) width from.now b.now }
    ensures kept { kept.new ≡ kept_after step.now width kept.old }
{
    let place = kept.ask_for(step, width);
    let row_bytes = width as usize * 4;
    let height = (from.len() / row_bytes) as u32;
    if height > 0 {
        let shares = Shares::of_step(step);
        let rows = MergeRows::new(step, b, map, &shares, kept.at(place), width, height);
        run_from(bands, &rows, from, a, row_bytes);
    }
}

/// The same as [`merge_pictures`], by columns that are worked out already.
fn merge_by<B: Bands>(
    step: &MergeStep,
    a: &mut [u8],
    b: &[u8],
    map: Option<&[u8]>,
    columns: &Columns,
    width: u32,
    bands: &B,
)
    requires range { IsMergeStep step.now }
    requires width { (1 ≤ width) × (width ≤ 4096) }
    requires rows { (length a.old % (width * 4) ≡ 0) × (length a.old / (width * 4) ≤ 4096) }
    requires same { length b.now ≡ length a.old }
    requires map { IsMap (map_of step.now) (length a.old) (option_copied map) }
    requires columns { HasColumns step.now width columns.now }
    ensures { a.new ≡ picture_merge step.now (option_copied map.entry) width a.old b.now }
{
    let row_bytes = width as usize * 4;
    let height = (a.len() / row_bytes) as u32;
    if height > 0 {
        let shares = Shares::of_step(step);
        let rows = MergeRows::new(step, b, map, &shares, columns, width, height);
        run_rows(bands, &rows, a, row_bytes);
    }
}
