//! The tracks of a tractor that is not made yet.

use crate::entry::Entry;
use crate::filter::FilterSpec;
use crate::lists::ItemList;
use crate::merge::MergeSpec;
use crate::tree::Hide;

/// A filter on a track that is not finished, from its first position to its last; where no last is given it
/// acts to the track's end.
#[derive(Drop)]
pub struct Pending {
    pub spec: FilterSpec,
    pub first: u32,
    pub last: Option<u32>,
}

/// What is planted on tracks that are not finished; where no last is given it acts to the tractor's end.
#[derive(Drop)]
pub enum PendingPlant {
    /// A filter on a track.
    OnTrack {
        track: u32,
        spec: FilterSpec,
        first: u32,
        last: Option<u32>,
    },
    /// A merge of the tracks `a` and `b`.
    Between {
        a: u32,
        b: u32,
        spec: MergeSpec,
        first: u32,
        last: Option<u32>,
    },
}

/// A track that is not finished: its entries, its filters, and for which medium it gives nothing.
#[derive(Drop)]
pub struct Draft {
    pub entries: ItemList<Entry>,
    pub filters: ItemList<Pending>,
    pub hide: Hide,
}
