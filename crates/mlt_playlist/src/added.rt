//! Entries that are added to a list.

ghost use Rattle.std.specs.Prelude.{◌^◌, ◌<◌};
ghost use Rattle.mlt_tree.specs.Edits as edit;
ghost use Rattle.mlt_tree.specs.Ranges.{IsEntry};
ghost use Rattle.mlt_playlist.specs.Playlist.{Does};

use crate::playlist::Playlist;
use crate::refused::{bad_clip, bad_range};
use mlt_base::{PlayFault, Pos, Span, Try, UnitId};
use mlt_tree::{Entry, FilterList};

impl Playlist {
    /// Puts an entry behind the others.
    ///
    /// Refused are more than 100,000 entries (`TooMany`), then 2^31 frames or more (`TooLong`).
    pub fn append(&mut self, entry: Entry) -> Result<(), Try<PlayFault>>
        requires { IsEntry entry }
        ensures { Does (edit.append entry self.old) self.old self.new result }
    {
        self.put_one(self.count(), entry)
    }

    /// Puts the frames first to last of a unit of so many frames behind the others, without filters.
    ///
    /// Refused are frames that don't lie within the length, or a last before the first (`BadRange`);
    /// otherwise as by [`append`](Playlist::append).
    pub fn append_io(
        &mut self,
        unit: UnitId,
        length: u32,
        first: u32,
        last: u32,
    ) -> Result<(), Try<PlayFault>>
        ensures { Does (edit.append_io unit.0 length first last self.old) self.old self.new result }
    {
        if first > last || last >= length {
            return Err(Try::Fault(bad_range(first, last, length)));
        }
        let filters = FilterList::new(self.alloc());
        let span = Span {
            first: Pos(first),
            last: Pos(last),
        };
        self.append(Entry::Clip {
            unit,
            span,
            filters,
        })
    }

    /// Puts a gap of last + 1 frames behind the others. Refused as by [`append`](Playlist::append).
    pub fn blank(&mut self, last: u32) -> Result<(), Try<PlayFault>>
        requires { last < 2 ^ 31 }
        ensures { Does (edit.blank last self.old) self.old self.new result }
    {
        self.append(Entry::Gap { frames: last + 1 })
    }

    /// Puts an entry before the one at an index, or behind all at the count.
    ///
    /// Refused is an index past the count (`BadClip`); otherwise as by [`append`](Playlist::append).
    pub fn insert(&mut self, at: usize, entry: Entry) -> Result<(), Try<PlayFault>>
        requires { IsEntry entry }
        ensures { Does (edit.insert at entry self.old) self.old self.new result }
    {
        let count = self.count();
        if at > count {
            return Err(Try::Fault(bad_clip(at, count)));
        }
        self.put_one(at, entry)
    }

    /// Puts a gap of last + 1 frames before the entry at an index, or behind all at the count. Refused
    /// as by [`insert`](Playlist::insert).
    pub fn insert_blank(&mut self, at: usize, last: u32) -> Result<(), Try<PlayFault>>
        requires { last < 2 ^ 31 }
        ensures { Does (edit.insert_blank at last self.old) self.old self.new result }
    {
        self.insert(at, Entry::Gap { frames: last + 1 })
    }
}
