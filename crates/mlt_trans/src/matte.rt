//! Matte: the lightness of one picture becomes the alpha of the other.

ghost use Rattle.std.specs.Prelude.{◌≡◌, ◌%◌, length};
ghost use Rattle.mlt_base.specs.Mixing.{table, lightness};
ghost use Rattle.mlt_kernel.specs.declared.pixel.Pixel.{Pixel};
ghost use Rattle.mlt_tree.specs.Merges.{matte};

use mlt_kernel::Pixel;
use mlt_kernel::pixel::{pixel_at, put_pixel};

/// Gives each pixel of a row the lightness of the other row's pixel for its alpha.
pub(crate) fn matte_row(row: &mut [u8], other: &[u8])
    requires same { length other.now ≡ length row.old }
    requires pixels { length row.old % 4 ≡ 0 }
    ensures { row.new ≡ table (length row.old) (matte row.old other.now) }
{
    for p in 0..row.len() / 4 {
        let old = pixel_at(row, p * 4);
        let light = lightness(pixel_at(other, p * 4));
        put_pixel(row, p * 4, Pixel { a: light, ..old });
    }
}

/// The lightness of a pixel, 0 to 255.
#[inline(always)]
pub fn lightness(pixel: Pixel) -> u8
    ensures { result ≡ lightness pixel.r pixel.g pixel.b }
{
    ((77 * pixel.r as u32 + 150 * pixel.g as u32 + 29 * pixel.b as u32) / 256) as u8
}
