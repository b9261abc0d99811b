//! A track to which nothing is added any more.

ghost use Rattle.std.specs.Prelude.{◌≡◌, map, fold, max, IfOk};
ghost use Rattle.mlt_tree.specs.Edits.{frames_in};
ghost use Rattle.mlt_tree.specs.Ranges.{frames};
ghost use Rattle.mlt_tree.specs.Units.{track_of};

use crate::pending::attached_all;
use mlt_index::Starts;
use mlt_playlist::Playlist;
use mlt_tree::{Entry, Hide, ItemList, Pending, Track};
use std::alloc::{AllocError, Global};
use std::marker::Model;

/// A track to which nothing is added any more. Contracts see it as its draft.
#[derive(Drop)]
pub(crate) struct Closed {
    pub list: Playlist,
    pub filters: ItemList<Pending>,
    pub hide: Hide,
}

impl Model for Closed {
    ghost use Rattle.mlt_tree.specs.declared.draft.Draft.{Draft};

    ghost Value = { Draft };

    ghost view = { λ track. record { entries = track.list; filters = track.filters; hide = track.hide } };
}

impl Closed {
    /// How many frames it has.
    pub fn frames(&self) -> u32
        ensures { result ≡ frames_in self.now.entries }
    {
        self.list.length()
    }

    /// Its entries, in order.
    pub fn entries(&self) -> &[Entry]
        ensures { result.now ≡ self.now.entries }
    {
        self.list.as_slice()
    }

    /// The track as it stands at the end, and where its entries begin. Neither its entries nor its filters
    /// are copied; what takes memory is the list of the filters with their spans.
    pub fn into_track(self, alloc: Global) -> Result<(Track, Starts), AllocError>
        ensures track { IfOk result (λ made. made.0 ≡ track_of self) }
        ensures starts { IfOk result (λ made. made.1 ≡ map frames self.entries) }
    {
        let Closed {
            list,
            filters,
            hide,
        } = self;
        let filters = attached_all(alloc, list.length(), filters)?;
        let (entries, starts) = list.into_parts();
        let track = Track::Playlist {
            entries,
            filters,
            hide,
        };
        Ok((track, starts))
    }
}

/// How many frames the longest of the tracks has.
pub(crate) fn longest(tracks: &[Closed]) -> u32
    ensures { result ≡ fold (λ most track. max most (frames_in track.entries)) 0 tracks.now }
{
    let mut most: u32 = 0;
    for track in tracks {
        most = most.max(track.frames());
    }
    most
}
