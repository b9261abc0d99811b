//! Entries that are changed where they stand.

ghost use Rattle.std.specs.Prelude.{◌≡◌, ◌+◌, ◌-◌, ◌≤◌, ◌<◌, ◌^◌, OnOk, OnErr};
ghost use Rattle.mlt_tree.specs.Edits as edit;
ghost use Rattle.mlt_tree.specs.Ranges.{IsAttached};
ghost use Rattle.mlt_playlist.specs.Changed.{is_within, resized, with_filter};
ghost use Rattle.mlt_playlist.specs.Playlist.{Does};

use crate::cut::frames_of;
use crate::index::exchange_starts;
use crate::playlist::Playlist;
use crate::refused::{bad_clip, bad_range};
use crate::splice::length_of;
use mlt_base::{PlayFault, Pos, Span, Try};
use mlt_tree::{Attached, Entry};
use std::alloc::AllocError;
use std::mem;

/// Whether an entry can have the frames first to last, of a unit of so many where it is a clip.
fn is_within(entry: &Entry, first: u32, last: u32, length: u32) -> bool
    ensures { result ≡ is_within entry.now first last length }
{
    match entry {
        Entry::Clip { .. } => first <= last && last < length,
        Entry::Gap { .. } => first <= last,
    }
}

/// Gives an entry the frames first to last.
fn resize(entry: &mut Entry, first: u32, last: u32)
    requires { (first ≤ last) × (last + 1 - first < 2 ^ 32) }
    ensures { entry.new ≡ resized entry.old first last }
{
    match entry {
        Entry::Clip { span, .. } => {
            *span = Span {
                first: Pos(first),
                last: Pos(last),
            }
        }
        Entry::Gap { frames } => *frames = last - first + 1,
    }
}

/// Puts a filter behind those of a clip; a gap has none.
fn push_filter(entry: &mut Entry, filter: Attached) -> Result<(), AllocError>
    ensures ok { OnOk result (entry.new ≡ with_filter entry.old filter) }
    ensures err { OnErr result (entry.new ≡ entry.old) }
{
    if let Entry::Clip { filters, .. } = entry {
        if filters.push(filter).is_err() {
            return Err(AllocError);
        }
    }
    Ok(())
}

impl Playlist {
    /// Puts a gap of as many frames in place of the entry at an index, and hands the entry out.
    ///
    /// Refused is an index that isn't below the count (`BadClip`).
    pub fn replace_with_blank(&mut self, at: usize) -> Result<Entry, Try<PlayFault>>
        ensures { Does (edit.replace_with_blank at self.old) self.old self.new result }
    {
        let count = self.count();
        if at >= count {
            return Err(Try::Fault(bad_clip(at, count)));
        }
        let frames = frames_of(&self.entries[at]) as u32;
        Ok(mem::replace(&mut self.entries[at], Entry::Gap { frames }))
    }

    /// Puts a filter behind those of the clip at an index.
    ///
    /// Refused is an index at which no clip stands (`BadClip`).
    pub fn attach(&mut self, at: usize, filter: Attached) -> Result<(), Try<PlayFault>>
        requires { IsAttached filter }
        ensures { Does (edit.attach at filter self.old) self.old self.new result }
    {
        let count = self.count();
        let Some(Entry::Clip { .. }) = self.entries.get(at) else {
            return Err(Try::Fault(bad_clip(at, count)));
        };
        push_filter(&mut self.entries[at], filter)?;
        Ok(())
    }

    /// Gives the clip at an index the frames first to last of its unit, which has so many, or a gap
    /// as many frames.
    ///
    /// Refused are an index that isn't below the count (`BadClip`), a last before the first or, for a
    /// clip, frames that don't lie within the length (`BadRange`), then 2^31 frames or more
    /// (`TooLong`).
    pub fn resize_clip(
        &mut self,
        at: usize,
        first: u32,
        last: u32,
        length: u32,
    ) -> Result<(), Try<PlayFault>>
        ensures { Does (edit.resize_clip at first last length self.old) self.old self.new result }
    {
        let count = self.count();
        let Some(entry) = self.entries.get(at) else {
            return Err(Try::Fault(bad_clip(at, count)));
        };
        if !is_within(entry, first, last, length) {
            return Err(Try::Fault(bad_range(first, last, length)));
        }
        let others = u64::from(self.length()) - frames_of(entry);
        length_of(others + u64::from(last) + 1 - u64::from(first))?;
        resize(&mut self.entries[at], first, last);
        exchange_starts(&mut self.starts, at, 1, &[last - first + 1]);
        Ok(())
    }
}
