//! The units of a composition, which entries refer to by their numbers.

use crate::entry::Entry;
use crate::lists::{FilterList, ItemList};
use crate::tree::{Hide, Plant, SourceKind};
use mlt_base::SourceNo;

/// One of the tracks of a unit.
#[derive(Drop)]
pub enum Track {
    /// Entries one after another, and filters on the whole, in the track's positions.
    Playlist {
        entries: ItemList<Entry>,
        filters: FilterList,
        hide: Hide,
    },
    /// One entry, which gives both media: one half of a mix over so many frames. The entry may have another
    /// number of them.
    Half {
        entry: Entry,
        frames: u32,
    },
}

/// What a unit is made of.
#[derive(Drop)]
pub enum Body {
    /// A source of so many frames.
    Source {
        no: SourceNo,
        kind: SourceKind,
        frames: u32,
    },
    /// Entries, one after another.
    Entries {
        entries: ItemList<Entry>,
    },
    /// Tracks over each other, the later ones above, with what is planted on them, in order. A mix is two
    /// halves over each other, with its merges planted on them.
    Tractor {
        tracks: ItemList<Track>,
        plants: ItemList<Plant>,
    },
}

/// A unit: what it is made of, and filters in its own positions. Its entries refer to lower-numbered
/// units alone.
#[derive(Drop)]
pub struct Node {
    pub body: Body,
    pub filters: FilterList,
}
