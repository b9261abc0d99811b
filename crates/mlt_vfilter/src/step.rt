//! A filter at one position of a picture.

ghost use Rattle.std.specs.Prelude.{◌≡◌, ◌*◌, ◌/◌, ◌%◌, ◌≤◌, true, length};
ghost use Rattle.mlt_tree.specs.Filters.{picture_filter};
ghost use Rattle.mlt_tree.specs.Ranges.{IsFilterStep};
ghost use Rattle.mlt_vfilter.specs.Neutral.{is_neutral};

use crate::mirror::turn_rows;
use crate::obscure::obscure;
use crate::rows::{FilterRows, goes_by_rows};
use mlt_slice::{Bands, run_from, run_rows};
use mlt_tree::FilterStep;

/// Filters a picture; a filter of sound leaves it. The picture has `width` pixels a row, 1 to 4096, four
/// bytes a pixel, and whole rows, at most 4096. `bands` goes through the rows where the filter looks at
/// one row at a time; a vertical mirror and obscure go through the picture by themselves.
pub fn apply<B: Bands>(step: &FilterStep, picture: &mut [u8], width: u32, bands: &B)
    requires range { IsFilterStep step.now }
    requires width { (1 ≤ width) × (width ≤ 4096) }
    requires rows { (length picture.old % (width * 4) ≡ 0) × (length picture.old / (width * 4) ≤ 4096) }
    ensures { picture.new ≡ picture_filter step.now width picture.old }
{
    let row_bytes = width as usize * 4;
    if goes_by_rows(step) {
        let rows = (picture.len() / row_bytes) as u32;
        run_rows(bands, &FilterRows { step, width, rows }, picture, row_bytes);
    } else if let FilterStep::Obscure { size } = step {
        obscure(picture, width, *size);
    } else {
        turn_rows(picture, row_bytes);
    }
}

/// Filters the picture `from`, and writes what it becomes to `picture`, which is as long: the same as a copy and
/// [`apply`]. Where the filter goes by rows, each row is read once.
pub fn apply_from<B: Bands>(
    step: &FilterStep,
    from: &[u8],
    picture: &mut [u8],
    width: u32,
    bands: &B,
)
    requires range { IsFilterStep step.now }
    requires width { (1 ≤ width) × (width ≤ 4096) }
    requires rows { (length from.now % (width * 4) ≡ 0) × (length from.now / (width * 4) ≤ 4096) }
    requires same { length picture.old ≡ length from.now }
    ensures { picture.new ≡ picture_filter step.now width from.now }
{
    if goes_by_rows(step) {
        let row_bytes = width as usize * 4;
        let rows = (from.len() / row_bytes) as u32;
        run_from(
            bands,
            &FilterRows { step, width, rows },
            from,
            picture,
            row_bytes,
        );
    } else {
        picture.copy_from_slice(from);
        apply(step, picture, width, bands);
    }
}

/// Whether a filter leaves a picture as it is, whatever its bytes are: brightness and opacity at level 1 do, and
/// so does each filter of sound. The picture isn't looked at.
pub fn leaves(step: &FilterStep, _picture: &[u8], _width: u32) -> bool
    ensures value { result ≡ is_neutral step.now }
    ensures same { result ≡ true → picture_filter step.now _width _picture.now ≡ _picture.now }
{
    is_neutral(step)
}

/// Whether a filter leaves each picture as it is.
fn is_neutral(step: &FilterStep) -> bool
    ensures { result ≡ is_neutral step.now }
{
    match step {
        FilterStep::Brightness { level } => level.0 == 65536,
        FilterStep::Greyscale => false,
        FilterStep::Invert => false,
        FilterStep::Mirror { .. } => false,
        FilterStep::Crop { .. } => false,
        FilterStep::Threshold { .. } => false,
        FilterStep::Sepia => false,
        FilterStep::Obscure { .. } => false,
        FilterStep::Opacity { level } => level.0 == 65536,
        FilterStep::SwapChannels { .. } => false,
        FilterStep::Volume { .. } => true,
        FilterStep::Mono => true,
        FilterStep::ChannelCopy { .. } => true,
        FilterStep::ChannelSwap => true,
        FilterStep::Silence => true,
    }
}
