//! Frames that are taken out at a position, and entries that are put in there.

ghost use Rattle.std.specs.Prelude.{◌≡◌, ◌+◌, ◌-◌, ◌≤◌, ◌<◌, ◌^◌, [], ◌∷◌, ◌++◌, length, map, take, drop, min};
ghost use Rattle.mlt_tree.specs.Edits as edit;
ghost use Rattle.mlt_tree.specs.Edits.{frames_in, grown};
ghost use Rattle.mlt_tree.specs.declared.entry.Entry.TheVariants.{Gap};
ghost use Rattle.mlt_tree.specs.Ranges.{IsEntry, frames};
ghost use Rattle.mlt_playlist.specs.Place.{before, entry_at, rest, without_part};
ghost use Rattle.mlt_playlist.specs.Playlist.{Does, IsIndexed};

use crate::cut::{frames_of, narrow};
use crate::divide::sized;
use crate::index::exchange_starts;
use crate::playlist::Playlist;
use crate::refused::{bad_range, held};
use mlt_base::{PlayFault, Try};
use mlt_index::Starts;
use mlt_tree::Entry;

/// Leaves of an entry its frames before a place, if there are any, and gives the index behind them.
fn keep_before(entries: &mut Vec<Entry>, at: usize, place: u32) -> usize
    requires within { at ≤ length entries.old.items }
    requires there { 0 < place → at < length entries.old.items }
    requires inside { 0 < place → place < frames (entry_at entries.old.items at) }
    ensures index { result ≡ at + min place 1 }
    ensures first { take result entries.new.items ≡ take at entries.old.items ++ before (entry_at entries.old.items at) place }
    ensures last { drop result entries.new.items ≡ drop result entries.old.items }
    ensures len { length entries.new.items ≡ length entries.old.items }
{
    if place == 0 {
        return at;
    }
    narrow(&mut entries[at], 0, place);
    at + 1
}

/// Leaves of an entry its frames from a place on, where any stand before it.
fn keep_rest(entries: &mut Vec<Entry>, at: usize, place: u32)
    requires within { at ≤ length entries.old.items }
    requires there { 0 < place → at < length entries.old.items }
    requires inside { 0 < place → place < frames (entry_at entries.old.items at) }
    requires short { 0 < place → frames (entry_at entries.old.items at) < 2 ^ 32 }
    ensures first { take at entries.new.items ≡ take at entries.old.items }
    ensures last { drop at entries.new.items ≡ rest (entry_at entries.old.items at) place ++ drop (at + min place 1) entries.old.items }
    ensures len { length entries.new.items ≡ length entries.old.items }
{
    if place == 0 {
        return;
    }
    let frames = frames_of(&entries[at]) as u32;
    narrow(&mut entries[at], place, frames);
}

/// Takes the entries from an index to before another out.
fn erase(entries: &mut Vec<Entry>, from: usize, to: usize)
    requires { (from ≤ to) × (to ≤ length entries.old.items) }
    ensures { entries.new.items ≡ take from entries.old.items ++ drop to entries.old.items }
{
    let count = entries.len() - (to - from);
    entries[from..].rotate_left(to - from);
    entries.truncate(count);
}

/// Takes out the frames from a place in an entry to before one in a later, or in it if none stays.
fn cut_out(entries: &mut Vec<Entry>, from: usize, first: u32, to: usize, last: u32)
    requires order { from + min first 1 ≤ to }
    requires within { to ≤ length entries.old.items }
    requires there { 0 < last → to < length entries.old.items }
    requires before { 0 < first → first < frames (entry_at entries.old.items from) }
    requires rest { 0 < last → last < frames (entry_at entries.old.items to) }
    requires short { 0 < last → frames (entry_at entries.old.items to) < 2 ^ 32 }
    ensures { entries.new.items ≡ without_part entries.old.items from first to last }
{
    let start = keep_before(entries, from, first);
    keep_rest(entries, to, last);
    erase(entries, start, to);
}

/// Takes the numbers of the frames out that [`cut_out`] takes out.
fn cut_starts(starts: &mut Starts, entries: &[Entry], from: usize, first: u32, to: usize, last: u32)
    requires indexed { IsIndexed entries.now starts.old }
    requires order { from + min first 1 ≤ to }
    requires within { to ≤ length entries.now }
    requires there { 0 < last → to < length entries.now }
    requires before { 0 < first → first < frames (entry_at entries.now from) }
    requires rest { 0 < last → last < frames (entry_at entries.now to) }
    requires short { frames_in (without_part entries.now from first to last) < 2 ^ 31 }
    ensures { starts.new ≡ map frames (without_part entries.now from first to last) }
{
    let mut behind = to;
    let mut left = 0;
    if last > 0 {
        behind = to + 1;
        left = frames_of(&entries[to]) as u32 - last;
    }
    let parts = [first, left];
    let some = &parts[usize::from(first == 0)..1 + usize::from(last > 0)];
    exchange_starts(starts, from, behind - from, some);
}

impl Playlist {
    /// Takes n frames out, from a position on; what stands behind them closes up.
    ///
    /// Refused are no frames, or some past the length (`BadRange`), then more than 100,000 entries
    /// (`TooMany`), which one entry that becomes two can make.
    pub fn remove_region(&mut self, at: u32, n: u32) -> Result<(), Try<PlayFault>>
        ensures { Does (edit.remove_region at n self.old) self.old self.new result }
    {
        let length = self.length();
        let end = at as usize + n as usize;
        if n == 0 || end > length as usize {
            return Err(Try::Fault(bad_range(at, held(end - n.min(1) as usize), length)));
        }
        let (from, first) = self.place(at);
        let (to, last) = self.place(end as u32);
        if from == to && first > 0 {
            return self.divide(from, first, last, None);
        }
        cut_starts(&mut self.starts, &self.entries, from, first, to, last);
        cut_out(&mut self.entries, from, first, to, last);
        Ok(())
    }

    /// Puts an entry in at a position: before the entry that begins there, or between the two parts of
    /// the entry that has the position, or behind a gap that reaches from the end to the position.
    ///
    /// Refused are more than 100,000 entries (`TooMany`), then 2^31 frames or more (`TooLong`).
    pub fn insert_at(&mut self, at: u32, entry: Entry) -> Result<(), Try<PlayFault>>
        requires at { at < 2 ^ 31 }
        requires entry { IsEntry entry }
        ensures { Does (edit.insert_at at entry self.old) self.old self.new result }
    {
        if at > self.length() {
            return self.append_at(at, entry);
        }
        let (index, place) = self.place(at);
        if place == 0 {
            return self.put_one(index, entry);
        }
        self.divide(index, place, place, Some(entry))
    }

    /// Puts a gap behind the others that reaches to a position, and an entry behind it.
    fn append_at(&mut self, at: u32, entry: Entry) -> Result<(), Try<PlayFault>>
        requires at { (frames_in self.old < at) × (at < 2 ^ 31) }
        requires entry { IsEntry entry }
        ensures { Does (grown tt (self.old ++ (Gap (at - frames_in self.old) ∷ entry ∷ []))) self.old self.new result }
    {
        let count = self.entries.len();
        let frames = frames_of(&entry);
        sized(count + 2, u64::from(at) + frames)?;
        self.entries.reserve(2)?;
        let gap = at - self.length();
        self.starts.replace(count, 0, &[gap, frames as u32])?;
        self.entries.push_reserved(Entry::Gap { frames: gap });
        self.entries.push_reserved(entry);
        Ok(())
    }
}
