//! Swapchannels: the channels of each pixel in another order.

ghost use Rattle.std.specs.Prelude.{◌≡◌, ◌%◌, ◌<◌, All, length};
ghost use Rattle.mlt_base.specs.Mixing.{table};
ghost use Rattle.mlt_tree.specs.Filters.{swapchannels};
ghost use Rattle.mlt_vfilter.specs.Pixels.{channel, reordered};

use crate::pixels::{PixelFilter, filter_pixels};
use mlt_kernel::Pixel;

/// The filter of a pixel.
#[derive(Clone, Copy)]
struct SwapChannelsFilter {
    order: [u8; 4],
}

impl PixelFilter for SwapChannelsFilter {
    ghost makes = { λ filter. reordered filter.order };

    fn filter(self, pixel: Pixel) -> Pixel {
        let [r, g, b, a] = self.order;
        Pixel {
            r: channel(pixel, r),
            g: channel(pixel, g),
            b: channel(pixel, b),
            a: channel(pixel, a),
        }
    }
}

/// A channel by its number.
fn channel(pixel: Pixel, number: u8) -> u8
    ensures { result ≡ channel pixel number }
{
    match number {
        0 => pixel.r,
        1 => pixel.g,
        2 => pixel.b,
        _ => pixel.a,
    }
}

/// Takes the new red, green, blue and alpha of each pixel of a row from the channels that `order` names,
/// 0 to 3 for red, green, blue and alpha.
#[tactic(auto, using(crate::proofs::Shapes::reordered_row))]
pub fn swapchannels(order: [u8; 4], row: &mut [u8])
    requires order { All (λ channel. channel < 4) order }
    requires pixels { length row.old % 4 ≡ 0 }
    ensures { row.new ≡ table (length row.old) (swapchannels order row.old) }
{
    filter_pixels(SwapChannelsFilter { order }, row);
}
