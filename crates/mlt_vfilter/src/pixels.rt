//! Filters that look at one pixel at a time: one loop for all of them.

ghost use Rattle.std.specs.Prelude.{◌≡◌, ℕ, ◌+◌, ◌*◌, ◌/◌, ◌%◌, ◌≤◌, length};
ghost use Rattle.mlt_base.specs.Mixing.{table};
ghost use Rattle.mlt_kernel.specs.declared.pixel.Pixel.{Pixel};
ghost use Rattle.mlt_vfilter.specs.Pixels.{IsMade, lightness_of, pixelwise};

use mlt_kernel::Pixel;
use mlt_kernel::pixel::{pixel_at, put_pixel};

/// A filter that makes each pixel of the pixel that was there.
pub trait PixelFilter {
    /// What it makes of a channel, by the channel's number and value and the old pixel.
    ghost makes: { Self → ℕ → ℕ → Pixel → ℕ };

    /// Filters a pixel.
    fn filter(self, pixel: Pixel) -> Pixel
        ensures { IsMade (makes self) pixel result };
}

/// Filters each pixel of a row.
pub fn filter_pixels<F: PixelFilter + Copy>(filter: F, row: &mut [u8])
    requires { length row.old % 4 ≡ 0 }
    ensures { row.new ≡ table (length row.old) (pixelwise (F.makes filter) row.old) }
{
    for p in 0..row.len() / 4 {
        let old = pixel_at(row, p * 4);
        let new = filter.filter(old);
        put_pixel(row, p * 4, new);
    }
}

/// The lightness of a pixel, 0 to 255.
pub fn lightness_of(pixel: Pixel) -> u8
    ensures { result ≡ lightness_of pixel }
{
    ((77 * pixel.r as u32 + 150 * pixel.g as u32 + 29 * pixel.b as u32) / 256) as u8
}
