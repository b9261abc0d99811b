//! How long units are, how many buffers they take, and how deep they are nested.

ghost use Rattle.std.specs.Prelude.{◌≡◌, length, All};
ghost use Rattle.mlt_tree.specs.Ranges.{IsEntry};
ghost use Rattle.mlt_tree.specs.Units.{AreEntriesBelow, IsEntryBelow};
ghost use Rattle.mlt_graph.specs.Sizes.{nothing, plain, part, entry_size, then_size, entries_size, over_size, drafts_size, list_size, tractor_size};

use crate::closed::Closed;
use mlt_tree::Entry;

/// What is known of a unit from when it is added, each number held to 2^32 - 1: its length in frames, the
/// picture buffers that it takes to work a frame out, and how deep it is nested. Filters don't change these.
#[derive(Clone, Copy, Debug)]
pub(crate) struct Size {
    pub length: u32,
    pub need: u32,
    pub depth: u32,
}

impl Size {
    /// No frame, and nothing to work out.
    pub fn nothing() -> Size
        ensures { result ≡ nothing }
    {
        Size {
            length: 0,
            need: 0,
            depth: 0,
        }
    }

    /// So many frames that are worked out at once.
    pub fn plain(length: u32) -> Size
        ensures { result ≡ plain length }
    {
        Size {
            length,
            need: 1,
            depth: 0,
        }
    }

    /// Entries, one after another.
    pub fn of_entries(table: &[Size], entries: &[Entry]) -> Size
        requires { AreEntriesBelow (length table.now) entries.now }
        ensures { result ≡ entries_size table.now entries.now }
    {
        let mut size = Size::plain(0);
        for entry in entries {
            size = size.then(Size::of_entry(table, entry));
        }
        size
    }

    /// These frames, and then those of the other.
    fn then(self, next: Size) -> Size
        ensures { result ≡ then_size self next }
    {
        Size {
            length: self.length.saturating_add(next.length),
            need: self.need.max(next.need),
            depth: self.depth.max(next.depth),
        }
    }

    /// An entry, whose unit is in the table.
    pub fn of_entry(table: &[Size], entry: &Entry) -> Size
        requires below { IsEntryBelow (length table.now) entry.now }
        requires range { IsEntry entry.now }
        ensures { result ≡ entry_size table.now entry.now }
    {
        match entry {
            Entry::Clip { unit, span, .. } => {
                let frames = (span.last.0 - span.first.0).saturating_add(1);
                table[unit.0 as usize].part(frames)
            }
            Entry::Gap { frames } => Size::plain(*frames),
        }
    }

    /// So many frames of this.
    fn part(self, frames: u32) -> Size
        ensures { result ≡ part frames self }
    {
        Size {
            length: frames,
            ..self
        }
    }

    /// Tracks, over each other.
    pub fn of_drafts(table: &[Size], drafts: &[Closed]) -> Size
        requires { All (λ draft. AreEntriesBelow (length table.now) draft.entries) drafts.now }
        ensures { result ≡ drafts_size table.now drafts.now }
    {
        let mut size = Size::nothing();
        for draft in drafts {
            size = size.under(Size::of_entries(table, draft.entries()));
        }
        size
    }

    /// The tracks of this, and one more over them.
    pub fn under(self, track: Size) -> Size
        ensures { result ≡ over_size self track }
    {
        Size {
            length: self.length.max(track.length),
            need: self.need.max(track.need),
            depth: self.depth.max(track.depth),
        }
    }

    /// A unit of these entries.
    pub fn list(self) -> Size
        ensures { result ≡ list_size self }
    {
        Size {
            depth: self.depth.saturating_add(1),
            ..self
        }
    }

    /// A unit of these tracks, which are so many.
    pub fn tractor(self, tracks: u32) -> Size
        ensures { result ≡ tractor_size tracks self }
    {
        Size {
            length: self.length,
            need: self.need.saturating_add(tracks),
            depth: self.depth.saturating_add(1),
        }
    }
}
