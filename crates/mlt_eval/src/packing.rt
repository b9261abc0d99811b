//! Pictures as they are written.

ghost use Rattle.std.specs.Prelude.{◌≡◌, ◌*◌, ◌/◌, ◌%◌, ◌≤◌, length, unwrap_or};
ghost use Rattle.mlt_base.specs.Picture.{clear};
ghost use Rattle.mlt_base.specs.ProfileView.{measures_of};
ghost use Rattle.mlt_eval.specs.Registers.{held, IsThere};
ghost use Rattle.mlt_graph.specs.Piece.{pixel_bytes};
ghost use Rattle.mlt_graph.specs.Show.{pix_of};
ghost use Rattle.mlt_tree.specs.Show.{pixels_of, packed, AreFitted};

use crate::register::Register;
use crate::scene::{Scene, fitted_bytes};
use mlt_graph::Pix;
use mlt_image::pack_rgb24;
use mlt_pool::Lease;

/// Writes a picture: laid over black, or its bytes as they are.
fn pack(pix: Pix, picture: &[u8], out: &mut [u8])
    requires whole { length picture.now % 4 ≡ 0 }
    requires room { length out.old ≡ length picture.now / 4 * pixel_bytes pix }
    ensures { out.new ≡ packed (pix_of pix) picture.now }
{
    match pix {
        Pix::Rgb => pack_rgb24(picture, out),
        Pix::Rgba => out.copy_from_slice(picture),
    }
}

/// Writes the picture of a register from where it is, transparent black where there is none.
pub(crate) fn pack_register(
    scene: &Scene<'_>,
    block: &Lease,
    state: Register,
    pix: Pix,
    out: &mut [u8],
)
    requires fitted { AreFitted (measures_of scene.now.profile.now) scene.now.table.now scene.now.fitted.now.fits }
    requires there { IsThere (length scene.now.fitted.now.fits) state }
    requires room { pixels_of (measures_of scene.now.profile.now) * 4 ≤ length block.now }
    requires out { length out.old ≡ pixels_of (measures_of scene.now.profile.now) * pixel_bytes pix }
    ensures { out.new ≡ packed (pix_of pix) (unwrap_or (held (pixels_of (measures_of scene.now.profile.now) * 4) scene.now.fitted.now.fits block.now state) (clear (pixels_of (measures_of scene.now.profile.now)))) }
{
    match state {
        Register::Nothing => out.fill(0),
        Register::Lent(place) => pack(pix, scene.fitted.pixels(place), out),
        Register::Owned => {
            let count = fitted_bytes(scene.profile);
            pack(pix, &block.bytes()[..count], out);
        }
    }
}
