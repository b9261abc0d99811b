//! The plain parts of a tree.

ghost use Rattle.std.specs.Prelude.{◌≡◌, IfOk};

use crate::filter::FilterSpec;
use crate::merge::MergeSpec;
use mlt_base::Span;
use std::alloc::AllocError;

/// What a source gives.
#[derive(Clone, Copy, Debug, PartialEq, Eq)]
pub enum SourceKind {
    /// One colour everywhere, the same in every frame.
    Colour,
    /// A picture, the same in every frame.
    Still,
    /// Samples of sound.
    Sound,
}

/// For which medium a track gives nothing.
#[derive(Clone, Copy, Debug, PartialEq, Eq)]
pub struct Hide {
    pub video: bool,
    pub audio: bool,
}

/// A filter, and the positions at which it acts, those of what it is attached to.
#[derive(Drop)]
pub struct Attached {
    pub spec: FilterSpec,
    pub span: Span,
}

impl Attached {
    /// A copy, with its own memory.
    pub fn copy(&self) -> Result<Attached, AllocError>
        ensures { IfOk result (λ filter. filter ≡ self.now) }
    {
        Ok(Attached {
            spec: self.spec.copy()?,
            span: self.span,
        })
    }
}

/// What is planted on the tracks of a tractor, at positions of the tractor. Tracks are counted from 0.
#[derive(Drop)]
pub enum Plant {
    /// A filter on a track.
    OnTrack {
        track: u32,
        spec: FilterSpec,
        span: Span,
    },
    /// A merge of the tracks `a` and `b`, which puts its result into `a` and leaves `b` with nothing.
    Between {
        a: u32,
        b: u32,
        spec: MergeSpec,
        span: Span,
    },
}
