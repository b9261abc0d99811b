//! Entries that become one clip, and entries that are repeated.

ghost use Rattle.std.specs.Prelude.{◌≡◌, ◌-◌, ◌≤◌, ◌<◌, [], length, replicate, IfOk};
ghost use Rattle.mlt_tree.specs.Edits as edit;
ghost use Rattle.mlt_tree.specs.Edits.{clip, replaced};
ghost use Rattle.mlt_playlist.specs.Place.{entry_at};
ghost use Rattle.mlt_playlist.specs.Playlist.{Does, IsCounted, IsTested};

use crate::cut::{frames_of, total};
use crate::divide::sized;
use crate::playlist::{EntryList, Playlist};
use crate::refused::{bad_clip, held, too_few};
use mlt_base::{PlayFault, Pos, Span, Try, UnitId};
use mlt_tree::{Entry, FilterList, ItemList};
use std::alloc::{AllocError, Global};

/// All of so many frames of a unit, without filters.
pub(crate) fn whole(alloc: Global, unit: UnitId, frames: u32) -> Entry
    requires { 1 ≤ frames }
    ensures { result ≡ clip unit.0 0 (frames - 1) [] }
{
    Entry::Clip {
        unit,
        span: Span {
            first: Pos(0),
            last: Pos(frames - 1),
        },
        filters: FilterList::new(alloc),
    }
}

/// So many copies of an entry.
fn copies(alloc: Global, entry: &Entry, n: usize) -> Result<Vec<Entry>, AllocError>
    ensures { IfOk result (λ copies. copies.items ≡ replicate n entry.now) }
{
    let mut all = Vec::with_capacity(alloc, n)?;
    for _copy in 0..n {
        all.push(entry.copy()?)?;
    }
    Ok(all)
}

/// How many frames the entries would have with n of one in its place, or why that is refused.
fn fits(entries: &[Entry], frames: u32, at: usize, n: u32) -> Result<u32, PlayFault>
    requires counted { IsCounted entries.now frames }
    requires there { at < length entries.now }
    requires some { 1 ≤ n }
    ensures tested { IsTested (replaced entries.now at 1 (replicate n (entry_at entries.now at))) result }
{
    let more = n - 1;
    let all = u64::from(frames) + frames_of(&entries[at]) * u64::from(more);
    sized(entries.len() + more as usize, all)
}

impl Playlist {
    /// Puts one clip of a unit that is made of them in place of n entries from an index on, and hands
    /// these out, in order.
    ///
    /// Refused are no entries, or more than stand there (`TooFew`).
    pub fn join(&mut self, at: usize, n: usize, unit: UnitId) -> Result<EntryList, Try<PlayFault>>
        ensures { Does (edit.join at n unit.0 self.old) self.old self.new result }
    {
        let count = self.entries.len();
        if n == 0 || n > count.saturating_sub(at) {
            return Err(Try::Fault(too_few(at, count, held(n))));
        }
        let frames = total(&self.entries[at..at + n]);
        // It takes the entries that are handed out.
        let mut new = Vec::with_capacity(self.alloc(), n)?;
        new.push(whole(self.alloc(), unit, frames as u32))?;
        match self.splice(at, n, ItemList::from_vec(new)) {
            Ok(joined) => Ok(joined),
            Err(_) => Err(Try::Memory),
        }
    }

    /// Puts n of the entry at an index in its place.
    ///
    /// Refused are an index that isn't below the count (`BadClip`), then more than 100,000 entries
    /// (`TooMany`), then 2^31 frames or more (`TooLong`).
    pub fn repeat_clip(&mut self, at: usize, n: u32) -> Result<(), Try<PlayFault>>
        requires { 1 ≤ n }
        ensures { Does (edit.repeat_clip at n self.old) self.old self.new result }
    {
        let count = self.count();
        if at >= count {
            return Err(Try::Fault(bad_clip(at, count)));
        }
        fits(&self.entries, self.length(), at, n)?;
        let more = copies(self.alloc(), &self.entries[at], n as usize - 1)?;
        match self.splice(at + 1, 0, ItemList::from_vec(more)) {
            Ok(_) => Ok(()),
            Err(_) => Err(Try::Memory),
        }
    }
}
