//! Entries that are split.

ghost use Rattle.std.specs.Prelude.{◌≡◌, ◌≤◌, option_map, slice_get};
ghost use Rattle.mlt_tree.specs.Edits as edit;
ghost use Rattle.mlt_tree.specs.Edits.{frames_in};
ghost use Rattle.mlt_tree.specs.Ranges.{frames};
ghost use Rattle.mlt_playlist.specs.Place.{IsAt};
ghost use Rattle.mlt_playlist.specs.Playlist.{Does, IsList};

use crate::cut::frames_of;
use crate::playlist::Playlist;
use crate::refused::{bad_clip, bad_range};
use mlt_base::{PlayFault, Pos, Try};

/// How many of so many frames come before a split at k; `None` where all or none would.
fn before_split(frames: u32, k: i64) -> Option<u32>
    ensures { result ≡ edit.before_split frames k }
{
    let distance = k.unsigned_abs();
    let frames = u64::from(frames);
    if k < 0 {
        if distance < frames {
            return Some((frames - distance) as u32);
        }
        return None;
    }
    if distance + 1 < frames {
        return Some(distance as u32 + 1);
    }
    None
}

impl Playlist {
    /// How many frames the entry at an index has; `None` where no entry stands there.
    fn frames_at(&self, at: usize) -> Option<u32>
        ensures { result ≡ option_map frames (slice_get self.now at) }
    {
        let entry = self.entries.get(at)?;
        Some(frames_of(entry) as u32)
    }

    /// How many entries stand before a position, and how many frames of the next one.
    pub(crate) fn place(&self, at: u32) -> (usize, u32)
        requires { at ≤ frames_in self.now }
        ensures at { IsAt self.now at result.0 result.1 }
        ensures list { IsList self.now }
    {
        match self.clip_at(Pos(at)) {
            Some((index, place)) => (index, place.0),
            None => (self.entries.len(), 0),
        }
    }

    /// Splits the entry at an index in two: its frames 0 to k, then the others. A k below 0 counts from
    /// the last frame, as `-1` for all frames but the last.
    ///
    /// Refused are an index that isn't below the count (`BadClip`), then a k where one of the two would
    /// have no frame (`BadSplit`), then more than 100,000 entries (`TooMany`).
    pub fn split(&mut self, at: usize, k: i64) -> Result<(), Try<PlayFault>>
        ensures { Does (edit.split at k self.old) self.old self.new result }
    {
        let Some(frames) = self.frames_at(at) else {
            return Err(Try::Fault(bad_clip(at, self.count())));
        };
        let Some(place) = before_split(frames, k) else {
            return Err(Try::Fault(PlayFault::BadSplit { at: k, frames }));
        };
        self.divide(at, place, place, None)
    }

    /// Splits the entry that has a position, so that one begins there, and gives the index of that one;
    /// the count, at the length. An entry that begins there already stays whole.
    ///
    /// Refused are a position past the length (`BadRange`), then more than 100,000 entries (`TooMany`).
    pub fn split_at(&mut self, at: u32) -> Result<usize, Try<PlayFault>>
        ensures { Does (edit.split_at at self.old) self.old self.new result }
    {
        let length = self.length();
        if at > length {
            return Err(Try::Fault(bad_range(at, at, length)));
        }
        let (index, place) = self.place(at);
        if place == 0 {
            return Ok(index);
        }
        self.divide(index, place, place, None)?;
        Ok(index + 1)
    }
}
