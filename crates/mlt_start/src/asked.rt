//! The medium that operations are pushed for.

ghost use Rattle.std.specs.Prelude.{◌≡◌};
ghost use Rattle.mlt_tree.specs.Medium.{makes, hides, merges};
ghost use Rattle.mlt_start.specs.Asked.{medium_of};

use mlt_tree::{Hide, MergeSpec, SourceKind};

/// The medium that is asked for.
#[derive(Clone, Copy)]
pub(crate) enum Asked {
    Pictures,
    Sounds,
}

/// Whether a source of this kind gives the medium.
pub(crate) fn gives(asked: Asked, kind: SourceKind) -> bool
    ensures { result ≡ makes (medium_of asked) kind }
{
    match asked {
        Asked::Pictures => match kind {
            SourceKind::Colour | SourceKind::Still => true,
            SourceKind::Sound => false,
        },
        Asked::Sounds => match kind {
            SourceKind::Colour | SourceKind::Still => false,
            SourceKind::Sound => true,
        },
    }
}

/// Whether a track with this hide gives nothing of the medium.
pub(crate) fn is_hidden(asked: Asked, hide: Hide) -> bool
    ensures { result ≡ hides (medium_of asked) hide }
{
    match asked {
        Asked::Pictures => hide.video,
        Asked::Sounds => hide.audio,
    }
}

/// Whether a merge is one of the medium.
pub(crate) fn is_merged(asked: Asked, spec: &MergeSpec) -> bool
    ensures { result ≡ merges (medium_of asked) spec.now }
{
    match asked {
        Asked::Pictures => match spec {
            MergeSpec::Luma { .. } | MergeSpec::Composite { .. } | MergeSpec::Matte => true,
            MergeSpec::Mix | MergeSpec::Sum => false,
        },
        Asked::Sounds => match spec {
            MergeSpec::Luma { .. } | MergeSpec::Composite { .. } | MergeSpec::Matte => false,
            MergeSpec::Mix | MergeSpec::Sum => true,
        },
    }
}
