//! Invert: each colour turned around.

ghost use Rattle.std.specs.Prelude.{◌≡◌, ◌%◌, length};
ghost use Rattle.mlt_base.specs.Mixing.{table};
ghost use Rattle.mlt_tree.specs.Filters.{invert};
ghost use Rattle.mlt_vfilter.specs.Pixels.{inverted};

use crate::pixels::{PixelFilter, filter_pixels};
use mlt_kernel::Pixel;

/// The filter of a pixel.
#[derive(Clone, Copy)]
struct InvertFilter;

impl PixelFilter for InvertFilter {
    ghost makes = { λ _. inverted };

    fn filter(self, pixel: Pixel) -> Pixel {
        Pixel {
            r: 255 - pixel.r,
            g: 255 - pixel.g,
            b: 255 - pixel.b,
            a: pixel.a,
        }
    }
}

/// Takes each of red, green and blue of each pixel of a row from 255.
pub fn invert(row: &mut [u8])
    requires { length row.old % 4 ≡ 0 }
    ensures { row.new ≡ table (length row.old) (invert row.old) }
{
    filter_pixels(InvertFilter, row);
}
