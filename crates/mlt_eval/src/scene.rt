//! What the pictures of a frame are made of.

ghost use Rattle.std.specs.Prelude.{◌≡◌, ◌*◌, ◌≤◌};
ghost use Rattle.mlt_base.specs.ProfileView.{measures_of};
ghost use Rattle.mlt_graph.specs.Piece.{pixel_bytes};
ghost use Rattle.mlt_tree.specs.Show.{pixels_of};

use crate::Fitted;
use mlt_base::Profile;
use mlt_graph::Pix;
use mlt_source::SourceTable;

/// What pictures are made of: frames of a size, sources, and the pictures that were fitted.
#[derive(Drop)]
pub(crate) struct Scene<'a> {
    pub profile: &'a Profile,
    pub table: &'a SourceTable,
    pub fitted: &'a Fitted,
}

/// The number of pixels of a frame.
fn pixels(profile: &Profile) -> usize
    ensures value { result ≡ pixels_of (measures_of profile.now) }
    ensures small { result ≤ 16777216 }
{
    profile.width as usize * profile.height as usize
}

/// The number of bytes of a picture in a frame: four a pixel.
pub(crate) fn fitted_bytes(profile: &Profile) -> usize
    ensures value { result ≡ pixels_of (measures_of profile.now) * 4 }
    ensures small { result ≤ 67108864 }
{
    pixels(profile) * 4
}

/// The number of bytes of a picture as it is written.
pub(crate) fn packed_bytes(profile: &Profile, pix: Pix) -> usize
    ensures value { result ≡ pixels_of (measures_of profile.now) * pixel_bytes pix }
    ensures small { result ≤ 67108864 }
{
    let count = pixels(profile);
    match pix {
        Pix::Rgb => count * 3,
        Pix::Rgba => count * 4,
    }
}
