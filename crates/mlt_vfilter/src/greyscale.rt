//! Greyscale: the lightness of a pixel, and nothing of its colour.

ghost use Rattle.std.specs.Prelude.{◌≡◌, ◌%◌, length};
ghost use Rattle.mlt_base.specs.Mixing.{table};
ghost use Rattle.mlt_tree.specs.Filters.{greyscale};
ghost use Rattle.mlt_vfilter.specs.Pixels.{grey};

use crate::pixels::{PixelFilter, filter_pixels, lightness_of};
use mlt_kernel::Pixel;

/// The filter of a pixel.
#[derive(Clone, Copy)]
struct GreyscaleFilter;

impl PixelFilter for GreyscaleFilter {
    ghost makes = { λ _. grey };

    fn filter(self, pixel: Pixel) -> Pixel {
        let light = lightness_of(pixel);
        Pixel {
            r: light,
            g: light,
            b: light,
            a: pixel.a,
        }
    }
}

/// Gives red, green and blue of each pixel of a row its lightness.
pub fn greyscale(row: &mut [u8])
    requires { length row.old % 4 ≡ 0 }
    ensures { row.new ≡ table (length row.old) (greyscale row.old) }
{
    filter_pixels(GreyscaleFilter, row);
}
