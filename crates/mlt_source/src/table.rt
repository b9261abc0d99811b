//! The sources of a run, by their numbers.

ghost use Rattle.std.specs.Prelude.{◌≡◌, ◌<◌, ◌*◌, ◌∷◌, ◌++◌, [], length, slice_get, Some, OnOk, OnErr, IfOk};
ghost use Rattle.std.specs.Option.{option_map, option_copied};
ghost use Rattle.mlt_base.specs.ProfileView.{measures_of};
ghost use Rattle.mlt_image.specs.View.{pixel};
ghost use Rattle.mlt_source.specs.Sources.{source_of};
ghost use Rattle.mlt_tree.specs.Clips.{own_length};
ghost use Rattle.mlt_tree.specs.Show.{Plain, Drawn, kind_of, picture_of};

use crate::source::Source;
use mlt_base::{Profile, SourceNo, Still};
use mlt_image::Colour;
use mlt_tree::SourceKind;
use std::alloc::{AllocError, Global};
use std::marker::Model;

/// The sources of a run by their numbers, in order from 0.
#[derive(Drop)]
pub struct SourceTable {
    sources: Vec<Source>,
}

impl Model for SourceTable {
    ghost use Rattle.std.specs.Prelude.{List, map, length, ◌<◌, ◌^◌};
    ghost use Rattle.mlt_tree.specs.Show.{Source};

    ghost Value = { List Source };

    ghost use Rattle.mlt_source.specs.Sources.{source_of};

    ghost view = { λ t. map source_of t.sources.items };

    ghost invariant = { λ t. length t.sources.items < 2 ^ 32 };
}

impl SourceTable {
    /// A table without a source.
    pub fn new(alloc: Global) -> SourceTable
        ensures { result ≡ [] }
    {
        SourceTable {
            sources: Vec::new(alloc),
        }
    }

    /// Adds a source, which goes where it finds no memory. It answers the source's number, the next one.
    fn add(&mut self, source: Source) -> Result<SourceNo, AllocError>
        ensures added { OnOk result (self.new ≡ self.old ++ source_of source ∷ []) }
        ensures number { IfOk result (λ no. no.0 ≡ length self.old) }
        ensures same { OnErr result (self.new ≡ self.old) }
    {
        let Ok(number) = u32::try_from(self.sources.len()) else {
            return Err(AllocError);
        };
        if number == u32::MAX {
            return Err(AllocError);
        }
        self.sources.push(source)?;
        Ok(SourceNo(number))
    }

    /// Adds a colour. It answers the source's number, the next one.
    pub fn add_colour(&mut self, colour: Colour) -> Result<SourceNo, AllocError>
        ensures added { OnOk result (self.new ≡ self.old ++ Plain (pixel colour) ∷ []) }
        ensures number { IfOk result (λ no. no.0 ≡ length self.old) }
        ensures same { OnErr result (self.new ≡ self.old) }
    {
        self.add(Source::Colour(colour))
    }

    /// Adds a picture, of any size. It answers the source's number, the next one. Where memory is wanting
    /// the picture goes.
    pub fn add_still(&mut self, still: Still) -> Result<SourceNo, AllocError>
        ensures added { OnOk result (self.new ≡ self.old ++ Drawn still ∷ []) }
        ensures number { IfOk result (λ no. no.0 ≡ length self.old) }
        ensures same { OnErr result (self.new ≡ self.old) }
    {
        self.add(Source::Still(still))
    }

    /// The source of a number, where there is one.
    pub fn source(&self, no: SourceNo) -> Option<&Source>
        ensures { option_map source_of (option_copied result) ≡ slice_get self.now no.0 }
    {
        self.sources.get(no.0 as usize)
    }

    /// How many frames a source has by itself: 15,000, for colours and pictures alike.
    pub fn length(&self, no: SourceNo, profile: &Profile) -> u32
        requires { no.0 < length self.now }
        ensures { Some result ≡ option_map (own_length (measures_of profile.now)) (slice_get self.now no.0) }
    {
        self.sources[no.0 as usize].length(profile)
    }

    /// The kind of a source.
    pub fn kind(&self, no: SourceNo) -> SourceKind
        requires { no.0 < length self.now }
        ensures { Some result ≡ option_map kind_of (slice_get self.now no.0) }
    {
        self.sources[no.0 as usize].kind()
    }

    /// Writes the picture of a source in a frame: its colour everywhere, or the picture fitted. The slice
    /// has four bytes a pixel of the profile.
    pub fn load_into(&self, no: SourceNo, dst: &mut [u8], profile: &Profile)
        requires there { no.0 < length self.now }
        requires sized { length dst.old ≡ profile.now.width * profile.now.height * 4 }
        ensures { dst.new ≡ picture_of (measures_of profile.now) (slice_get self.now no.0) }
    {
        self.sources[no.0 as usize].load_into(dst, profile)
    }
}
