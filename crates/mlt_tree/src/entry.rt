//! The entries of a playlist: clips and gaps.

ghost use Rattle.std.specs.Prelude.{◌≡◌, IfOk};

use crate::lists::FilterList;
use mlt_base::{Span, UnitId};
use std::alloc::AllocError;

/// An entry of a playlist.
///
/// Each entry that a value holds has at least one frame, and filters in their ranges; each call that is
/// handed one asks for it (`IsEntry` in `specs/Ranges`).
#[derive(Drop)]
pub enum Entry {
    /// The frames of a unit from the first of the span to its last, with filters of its own. The
    /// positions of the filters are those of the unit.
    Clip {
        unit: UnitId,
        span: Span,
        filters: FilterList,
    },
    /// So many frames with nothing, at least 1.
    Gap {
        frames: u32,
    },
}

impl Entry {
    /// A copy, with its own memory.
    pub fn copy(&self) -> Result<Entry, AllocError>
        ensures { IfOk result (λ entry. entry ≡ self.now) }
    {
        Ok(match self {
            Entry::Clip {
                unit,
                span,
                filters,
            } => Entry::Clip {
                unit: *unit,
                span: *span,
                filters: filters.copy()?,
            },
            Entry::Gap { frames } => Entry::Gap { frames: *frames },
        })
    }
}
