//! Threshold: white where a pixel is light enough, black elsewhere.

ghost use Rattle.std.specs.Prelude.{◌≡◌, ◌%◌, length};
ghost use Rattle.mlt_base.specs.Mixing.{table};
ghost use Rattle.mlt_tree.specs.Filters.{threshold};
ghost use Rattle.mlt_vfilter.specs.Pixels.{parted};

use crate::pixels::{PixelFilter, filter_pixels, lightness_of};
use mlt_kernel::Pixel;

/// The filter of a pixel.
#[derive(Clone, Copy)]
struct ThresholdFilter {
    midpoint: u8,
}

impl PixelFilter for ThresholdFilter {
    ghost makes = { λ filter. parted filter.midpoint };

    fn filter(self, pixel: Pixel) -> Pixel {
        let value = if lightness_of(pixel) >= self.midpoint {
            255
        } else {
            0
        };
        Pixel {
            r: value,
            g: value,
            b: value,
            a: pixel.a,
        }
    }
}

/// Makes each pixel of a row white where its lightness is at least `midpoint`, else black; its alpha stays.
pub fn threshold(midpoint: u8, row: &mut [u8])
    requires { length row.old % 4 ≡ 0 }
    ensures { row.new ≡ table (length row.old) (threshold midpoint row.old) }
{
    filter_pixels(ThresholdFilter { midpoint }, row);
}
