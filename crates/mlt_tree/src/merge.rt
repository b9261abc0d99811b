//! Merges: what makes one picture or sound of two, that of a row `a` and that of a row `b`.

ghost use Rattle.std.specs.Prelude.{◌≡◌, ◌<◌, ◌≤◌};
ghost use Rattle.mlt_tree.specs.Acting.{progress, merge_step};
ghost use Rattle.mlt_tree.specs.Ranges.{IsMerge, IsMergeStep};

use mlt_base::{Geometry, Q16, SourceNo};

/// A merge as it is asked for, with one variant for each transition that a word may name.
///
/// The merges from `Luma` to `Matte` are of pictures, and the others of sound; a merge leaves the other
/// medium as it is. The numbers of a merge that a value holds are in the ranges given here, and each
/// call that is handed one asks for it (`IsMerge` in `specs/Ranges`).
#[derive(Clone, Copy, Debug)]
pub enum MergeSpec {
    /// From `a` to `b`, everywhere at once, or where there is a map, the dark parts of its picture first.
    /// `softness` is how wide the edge is, at most 1 (65536), 0 by default. No map by default.
    Luma {
        map: Option<SourceNo>,
        softness: Q16,
    },
    /// `b` laid over `a` at a place and size in the frame; the whole frame by default.
    Composite {
        geometry: Geometry,
    },
    /// The alpha of `a` becomes the lightness of `b`.
    Matte,
    /// From `a` to `b`, sample by sample.
    Mix,
    /// Both together.
    Sum,
}

/// A merge at one position. The numbers are in the ranges of [`MergeSpec`]; `q` is how far it has gone,
/// at most 65536; `p` is the position within the merge, below its number of frames `len`.
#[derive(Clone, Copy, Debug)]
pub enum MergeStep {
    Luma {
        map: Option<SourceNo>,
        softness: Q16,
        q: Q16,
    },
    Composite {
        geometry: Geometry,
    },
    Matte,
    Mix {
        p: u32,
        len: u32,
    },
    Sum,
}

/// How far `p` of `len` frames are, in 65536ths.
fn progress(p: u32, len: u32) -> Q16
    requires { p < len }
    ensures value { result.0 ≡ progress p len }
    ensures most { result.0 ≤ 65536 }
{
    Q16((u64::from(p) * 65536 / u64::from(len)) as u32)
}

impl MergeSpec {
    /// The merge where `p` of its `len` frames have passed.
    pub fn step(&self, p: u32, len: u32) -> MergeStep
        requires { p < len }
        ensures value { result ≡ merge_step self.now p len }
        ensures range { IsMerge self.now → IsMergeStep result }
    {
        match self {
            MergeSpec::Luma { map, softness } => MergeStep::Luma {
                map: *map,
                softness: *softness,
                q: progress(p, len),
            },
            MergeSpec::Composite { geometry } => MergeStep::Composite {
                geometry: *geometry,
            },
            MergeSpec::Matte => MergeStep::Matte,
            MergeSpec::Mix => MergeStep::Mix { p, len },
            MergeSpec::Sum => MergeStep::Sum,
        }
    }
}
