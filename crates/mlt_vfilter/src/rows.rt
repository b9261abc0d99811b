//! Filters that make each row of the row that was there: which they are, and what each does to a row.

ghost use Rattle.std.specs.Prelude.{◌≡◌, ◌*◌, ◌%◌, true, length};
ghost use Rattle.mlt_slice.specs.Rows.{by_bytes};
ghost use Rattle.mlt_tree.specs.Ranges.{IsFilterStep};
ghost use Rattle.mlt_vfilter.specs.Rows.{goes_by_rows, filtered_row};

use crate::crop::{Sides, crop};
use crate::greyscale::greyscale;
use crate::invert::invert;
use crate::mirror::turn_row;
use crate::opacity::opacity;
use crate::sepia::sepia;
use crate::swapchannels::swapchannels;
use crate::threshold::threshold;
use mlt_kernel::scale::scale;
use mlt_slice::RowByRow;
use mlt_tree::FilterStep;

/// Whether a filter makes each row of the row that was there: all do but a vertical mirror and obscure.
pub fn goes_by_rows(step: &FilterStep) -> bool
    ensures { result ≡ goes_by_rows step.now }
{
    match step {
        FilterStep::Brightness { .. } => true,
        FilterStep::Greyscale => true,
        FilterStep::Invert => true,
        FilterStep::Mirror { vertical } => !*vertical,
        FilterStep::Crop { .. } => true,
        FilterStep::Threshold { .. } => true,
        FilterStep::Sepia => true,
        FilterStep::Obscure { .. } => false,
        FilterStep::Opacity { .. } => true,
        FilterStep::SwapChannels { .. } => true,
        FilterStep::Volume { .. } => true,
        FilterStep::Mono => true,
        FilterStep::ChannelCopy { .. } => true,
        FilterStep::ChannelSwap => true,
        FilterStep::Silence => true,
    }
}

/// Filters the row of a number, of a picture of `rows` rows, by a filter that goes by rows. The row has four
/// bytes a pixel.
pub fn filter_row(step: &FilterStep, rows: u32, number: u32, row: &mut [u8])
    requires range { IsFilterStep step.now }
    requires goes { goes_by_rows step.now ≡ true }
    requires pixels { length row.old % 4 ≡ 0 }
    ensures { row.new ≡ by_bytes (filtered_row step.now rows) number row.old }
{
    match step {
        FilterStep::Brightness { level } => scale(row, *level),
        FilterStep::Greyscale => greyscale(row),
        FilterStep::Invert => invert(row),
        FilterStep::Mirror { .. } => turn_row(row),
        FilterStep::Crop {
            left,
            right,
            top,
            bottom,
        } => {
            let sides = Sides {
                left: *left,
                right: *right,
                top: *top,
                bottom: *bottom,
            };
            crop(sides, rows, number, row);
        }
        FilterStep::Threshold { midpoint } => threshold(*midpoint as u8, row),
        FilterStep::Sepia => sepia(row),
        FilterStep::Obscure { .. } => {}
        FilterStep::Opacity { level } => opacity(*level, row),
        FilterStep::SwapChannels { order } => swapchannels(*order, row),
        FilterStep::Volume { .. } => {}
        FilterStep::Mono => {}
        FilterStep::ChannelCopy { .. } => {}
        FilterStep::ChannelSwap => {}
        FilterStep::Silence => {}
    }
}

/// A filter that goes by rows, as work on the rows of a picture of `width` pixels a row and `rows` rows.
#[derive(Drop)]
pub struct FilterRows<'a> {
    pub step: &'a FilterStep,
    pub width: u32,
    pub rows: u32,
    pub ghost range: { ∥ IsFilterStep step.now ∥₁ },
    pub ghost goes: { goes_by_rows step.now ≡ true },
}

impl RowByRow for FilterRows<'_> {
    type Kept = ();

    ghost row_bytes = { λ filter. filter.width * 4 };

    ghost makes = { λ filter. by_bytes (filtered_row filter.step.now filter.rows) };

    ghost keeps = { λ _ _. Unit };

    fn begin(&self) {}

    fn row(&self, _kept: &mut (), number: u32, row: &mut [u8]) {
        filter_row(self.step, self.rows, number, row);
    }
}
