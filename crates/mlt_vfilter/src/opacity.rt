//! Opacity: alpha at a level.

ghost use Rattle.std.specs.Prelude.{◌≡◌, ◌%◌, ◌≤◌, length};
ghost use Rattle.mlt_base.specs.Mixing.{table, lit};
ghost use Rattle.mlt_tree.specs.Filters.{opacity};
ghost use Rattle.mlt_vfilter.specs.Pixels.{faded};

use crate::pixels::{PixelFilter, filter_pixels};
use mlt_base::Q16;
use mlt_kernel::Pixel;

/// The level from which on each alpha but 0 is 255: it is 256 times as much.
const GREATEST: u32 = 16777216;

/// The filter of a pixel.
#[derive(Clone, Copy)]
struct OpacityFilter {
    level: u32,
    ghost fits: { level ≤ 16777216 },
}

impl PixelFilter for OpacityFilter {
    ghost makes = { λ filter. faded filter.level };

    fn filter(self, pixel: Pixel) -> Pixel {
        Pixel {
            r: pixel.r,
            g: pixel.g,
            b: pixel.b,
            a: lit(self.level, pixel.a),
        }
    }
}

/// An alpha at a level.
fn lit(level: u32, alpha: u8) -> u8
    requires { level ≤ 16777216 }
    ensures { result ≡ lit level alpha }
{
    ((alpha as u32 * level + 32768) / 65536).min(255) as u8
}

/// Multiplies each alpha of a row by `level`, to the nearest whole number and at most 255; colours stay.
#[tactic(auto, using(crate::proofs::Shapes::held_row))]
pub fn opacity(level: Q16, row: &mut [u8])
    requires { length row.old % 4 ≡ 0 }
    ensures { row.new ≡ table (length row.old) (opacity level.0 row.old) }
{
    let filter = OpacityFilter {
        level: level.0.min(GREATEST),
    };
    filter_pixels(filter, row);
}
