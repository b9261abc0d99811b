//! Sepia: brown shades.

ghost use Rattle.std.specs.Prelude.{◌≡◌, ◌+◌, ◌%◌, min, length};
ghost use Rattle.mlt_base.specs.Mixing.{table};
ghost use Rattle.mlt_tree.specs.Filters.{sepia};
ghost use Rattle.mlt_vfilter.specs.Pixels.{brown};

use crate::pixels::{PixelFilter, filter_pixels, lightness_of};
use mlt_kernel::Pixel;

/// The filter of a pixel.
#[derive(Clone, Copy)]
struct SepiaFilter;

impl PixelFilter for SepiaFilter {
    ghost makes = { λ _. brown };

    fn filter(self, pixel: Pixel) -> Pixel {
        let light = lightness_of(pixel);
        Pixel {
            r: raised(light, 40),
            g: raised(light, 20),
            b: light,
            a: pixel.a,
        }
    }
}

/// A lightness and so much more, at most 255.
fn raised(light: u8, tint: u8) -> u8
    ensures { result ≡ min 255 (light + tint) }
{
    (light as u32 + tint as u32).min(255) as u8
}

/// Makes each pixel of a row a shade of brown, as light as it was or a little lighter; its alpha stays.
pub fn sepia(row: &mut [u8])
    requires { length row.old % 4 ≡ 0 }
    ensures { row.new ≡ table (length row.old) (sepia row.old) }
{
    filter_pixels(SepiaFilter, row);
}
