//! A playlist, and what can be asked of it.

ghost use Rattle.std.specs.Prelude.{◌≡◌, [], length, map, slice_get};
ghost use Rattle.std.specs.Option.{option_copied};
ghost use Rattle.mlt_tree.specs.Edits.{frames_in};
ghost use Rattle.mlt_tree.specs.Ranges.{frames};
ghost use Rattle.mlt_playlist.specs.Playlist.{IsList};

use mlt_index::Starts;
use mlt_tree::{Entry, ItemList};
use std::alloc::Global;
use std::marker::Model;

/// Entries in order, each of which has at least one frame.
pub type EntryList = ItemList<Entry>;

/// What a mix is made of: the last frames of the first entry, the first frames of the second, and how
/// many these are of each.
#[derive(Drop)]
pub struct MixParts {
    pub a: Entry,
    pub b: Entry,
    pub frames: u32,
}

/// Clips and gaps, one after another.
///
/// It has at most 100,000 entries, each of at least one frame, and fewer than 2^31 frames.
#[derive(Drop)]
pub struct Playlist {
    pub(crate) entries: Vec<Entry>,
    // where each entry begins
    pub(crate) starts: Starts,
}

impl Model for Playlist {
    ghost use Rattle.std.specs.Prelude.{List};
    ghost use Rattle.mlt_tree.specs.declared.entry.Entry.{Entry};
    ghost use Rattle.mlt_playlist.specs.Playlist.{IsIndexed};

    ghost Value = { List Entry };

    ghost view = { λ list. list.entries.items };

    ghost invariant = { λ list. IsIndexed list.entries.items list.starts };
}

impl Playlist {
    /// The empty list. It takes no memory.
    pub fn new(alloc: Global) -> Playlist
        ensures { result ≡ [] }
    {
        Playlist {
            entries: Vec::new(alloc),
            starts: Starts::new(alloc),
        }
    }

    /// How many entries there are.
    pub fn count(&self) -> usize
        ensures count { result ≡ length self.now }
        ensures list { IsList self.now }
    {
        self.entries.len()
    }

    /// How many frames the entries have together.
    pub fn length(&self) -> u32
        ensures { result ≡ frames_in self.now }
    {
        self.starts.sum()
    }

    /// Lets all entries go.
    pub fn clear(&mut self)
        ensures { self.new ≡ [] }
    {
        let alloc = self.alloc();
        self.entries.clear();
        self.starts = Starts::new(alloc);
    }

    /// The entry at an index from 0; `None` where the index isn't below the count.
    pub fn entry(&self, at: usize) -> Option<&Entry>
        ensures { option_copied result ≡ slice_get self.now at }
    {
        self.entries.get(at)
    }

    /// The entries, in order.
    pub fn as_slice(&self) -> &[Entry]
        ensures { result.now ≡ self.now }
    {
        self.entries.as_slice()
    }

    /// The entries, in order, and where each begins, without a copy.
    pub fn into_parts(self) -> (EntryList, Starts)
        ensures entries { result.0 ≡ self }
        ensures starts { result.1 ≡ map frames self }
        ensures list { IsList self }
    {
        let Playlist { entries, starts } = self;
        (ItemList::from_vec(entries), starts)
    }

    /// What its memory is taken from.
    pub(crate) fn alloc(&self) -> Global {
        *self.entries.allocator()
    }
}
