//! Entries that are taken out or change places. None of these calls takes memory.

ghost use Rattle.std.specs.Prelude.{◌≡◌, ◌+◌, ◌≤◌, ◌<◌, [], ◌∷◌, length, map};
ghost use Rattle.mlt_tree.specs.Edits as edit;
ghost use Rattle.mlt_tree.specs.Edits.{replaced};
ghost use Rattle.mlt_tree.specs.Ranges.{frames};
ghost use Rattle.mlt_playlist.specs.Changed.{moved};
ghost use Rattle.mlt_playlist.specs.Place.{entry_at};
ghost use Rattle.mlt_playlist.specs.Playlist.{Does, DoesAlways, IsIndexed};

use crate::cut::frames_of;
use crate::index::exchange_starts;
use crate::playlist::Playlist;
use crate::refused::{bad_clip, too_few};
use mlt_base::{PlayFault, Try};
use mlt_index::Starts;
use mlt_tree::Entry;

/// Moves the entry at an index behind those up to another index.
fn move_behind(entries: &mut [Entry], from: usize, to: usize)
    requires { (from ≤ to) × (to < length entries.old) }
    ensures moved { entries.new ≡ moved entries.old from to }
    ensures len { length entries.new ≡ length entries.old }
{
    entries[from..to + 1].rotate_left(1);
}

/// Moves the entry at an index before those from another index on.
fn move_before(entries: &mut [Entry], from: usize, to: usize)
    requires { (to ≤ from) × (from < length entries.old) }
    ensures moved { entries.new ≡ moved entries.old from to }
    ensures len { length entries.new ≡ length entries.old }
{
    entries[to..from + 1].rotate_right(1);
}

/// Moves the entry at an index to an index of the list without it.
fn move_entry(entries: &mut Vec<Entry>, from: usize, to: usize)
    requires { (from < length entries.old.items) × (to < length entries.old.items) }
    ensures { entries.new.items ≡ moved entries.old.items from to }
{
    if from <= to {
        move_behind(entries, from, to);
    } else {
        move_before(entries, from, to);
    }
}

/// Swaps the numbers of frames of two neighbours.
fn swap_starts(starts: &mut Starts, entries: &[Entry], at: usize)
    requires there { at + 1 < length entries.now }
    requires indexed { IsIndexed entries.now starts.old }
    ensures { starts.new ≡ map frames (replaced entries.now at 2 (entry_at entries.now (at + 1) ∷ entry_at entries.now at ∷ [])) }
{
    let first = frames_of(&entries[at]) as u32;
    let second = frames_of(&entries[at + 1]) as u32;
    exchange_starts(starts, at, 2, &[second, first]);
}

/// Moves the number of the entry at an index behind those up to another index.
fn move_start_behind(starts: &mut Starts, entries: &[Entry], from: usize, to: usize)
    requires range { (from ≤ to) × (to < length entries.now) }
    requires indexed { IsIndexed entries.now starts.old }
    ensures { IsIndexed (moved entries.now from to) starts.new }
{
    let frames = frames_of(&entries[from]) as u32;
    for index in from..to {
        let next = frames_of(&entries[index + 1]) as u32;
        exchange_starts(starts, index, 2, &[next, frames]);
    }
}

/// Moves the number of the entry at an index before those from another index on.
fn move_start_before(starts: &mut Starts, entries: &[Entry], from: usize, to: usize)
    requires range { (to ≤ from) × (from < length entries.now) }
    requires indexed { IsIndexed entries.now starts.old }
    ensures { IsIndexed (moved entries.now from to) starts.new }
{
    let frames = frames_of(&entries[from]) as u32;
    let mut index = from;
    while index > to {
        index -= 1;
        let passed = frames_of(&entries[index]) as u32;
        exchange_starts(starts, index, 2, &[frames, passed]);
    }
}

/// Moves the number of the entry at an index to an index of the list without it.
fn move_start(starts: &mut Starts, entries: &[Entry], from: usize, to: usize)
    requires range { (from < length entries.now) × (to < length entries.now) }
    requires indexed { IsIndexed entries.now starts.old }
    ensures { IsIndexed (moved entries.now from to) starts.new }
{
    if from <= to {
        move_start_behind(starts, entries, from, to);
    } else {
        move_start_before(starts, entries, from, to);
    }
}

impl Playlist {
    /// Takes the entry at an index out, and hands it out; later ones close up.
    ///
    /// Refused is an index that isn't below the count (`BadClip`).
    pub fn remove(&mut self, at: usize) -> Result<Entry, PlayFault>
        ensures { DoesAlways (edit.remove at self.old) self.old self.new result }
    {
        let count = self.count();
        if at >= count {
            return Err(bad_clip(at, count));
        }
        let entry = self.entries.remove(at);
        exchange_starts(&mut self.starts, at, 1, &[]);
        Ok(entry)
    }

    /// Takes the entry at an index out, and puts it in again at an index of the list without it.
    ///
    /// Refused is an index that isn't below the count (`BadClip`), first that of the entry.
    pub fn move_clip(&mut self, from: usize, to: usize) -> Result<(), Try<PlayFault>>
        ensures { Does (edit.move_clip from to self.old) self.old self.new result }
    {
        let count = self.count();
        if from >= count {
            return Err(Try::Fault(bad_clip(from, count)));
        }
        if to >= count {
            return Err(Try::Fault(bad_clip(to, count)));
        }
        move_start(&mut self.starts, &self.entries, from, to);
        move_entry(&mut self.entries, from, to);
        Ok(())
    }

    /// Swaps the last two entries.
    ///
    /// Refused are fewer than two entries (`TooFew`).
    pub fn swap_last(&mut self) -> Result<(), PlayFault>
        ensures { DoesAlways (edit.swap_last self.old) self.old self.new result }
    {
        let count = self.count();
        if count < 2 {
            return Err(too_few(0, count, 2));
        }
        swap_starts(&mut self.starts, &self.entries, count - 2);
        self.entries.swap(count - 2, count - 1);
        Ok(())
    }
}
