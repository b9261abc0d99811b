//! Places in entries.

ghost use Rattle.std.specs.Prelude.{◌≡◌, ◌≤◌, ◌+◌, nat_lt};
ghost use Rattle.mlt_tree.specs.Ranges.{IsEntry, frames};

use mlt_base::Span;
use mlt_tree::Entry;

/// The frame of a unit at a place of a clip of it.
pub(crate) fn frame_at(span: Span, place: u32) -> u32
    requires { span.first.0 + place ≤ span.last.0 }
    ensures { result ≡ span.first.0 + place }
{
    span.first.0 + place
}

/// Whether an entry has a place.
pub(crate) fn is_inside(entry: &Entry, place: u32) -> bool
    requires { IsEntry entry.now }
    ensures { result ≡ nat_lt place (frames entry.now) }
{
    match entry {
        Entry::Clip { span, .. } => place <= span.last.0 - span.first.0,
        Entry::Gap { frames } => place < *frames,
    }
}
