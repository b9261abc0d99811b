//! What a source holds.

ghost use Rattle.std.specs.Prelude.{◌≡◌, ◌*◌, length};
ghost use Rattle.mlt_base.specs.ProfileView.{measures_of};
ghost use Rattle.mlt_source.specs.Sources.{source_of};
ghost use Rattle.mlt_tree.specs.Clips.{own_length};
ghost use Rattle.mlt_tree.specs.Show.{kind_of, source_picture};

use mlt_base::limits::OWN_LENGTH;
use mlt_base::{Profile, Still};
use mlt_image::{Colour, fill, fit};
use mlt_tree::SourceKind;

/// What a source holds.
#[derive(Drop)]
pub enum Source {
    /// One colour.
    Colour(Colour),
    /// A picture of any size.
    Still(Still),
}

impl Source {
    /// Its kind.
    pub fn kind(&self) -> SourceKind
        ensures { result ≡ kind_of (source_of self.now) }
    {
        match self {
            Source::Colour(_) => SourceKind::Colour,
            Source::Still(_) => SourceKind::Still,
        }
    }

    /// How many frames it has by itself.
    pub fn length(&self, _profile: &Profile) -> u32
        ensures { result ≡ own_length (measures_of _profile.now) (source_of self.now) }
    {
        match self {
            Source::Colour(_) | Source::Still(_) => OWN_LENGTH,
        }
    }

    /// Writes its picture in a frame: its colour everywhere, or the picture fitted. The slice has four bytes a
    /// pixel of the profile.
    pub fn load_into(&self, dst: &mut [u8], profile: &Profile)
        requires { length dst.old ≡ profile.now.width * profile.now.height * 4 }
        ensures { dst.new ≡ source_picture (measures_of profile.now) (source_of self.now) }
    {
        match self {
            Source::Colour(colour) => fill(dst, *colour),
            Source::Still(still) => fit(still, dst, profile.width, profile.height),
        }
    }
}
