//! Two entries that overlap.

ghost use Rattle.std.specs.Prelude.{◌≡◌, ℕ, ◌+◌, ◌-◌, ◌≤◌, ◌<◌, ◌^◌, ◌∷◌, ◌++◌, All, length, map, min, vec_capacity, IfOk, OnOk, OnErr};
ghost use Rattle.mlt_tree.specs.Edits as edit;
ghost use Rattle.mlt_tree.specs.Edits.{cut, replaced, mixed_of};
ghost use Rattle.mlt_tree.specs.Ranges.{IsEntry, frames};
ghost use Rattle.mlt_playlist.specs.Overlaps.{answer_of, first_part, last_part, without_first, without_last};
ghost use Rattle.mlt_playlist.specs.Parts.{mixed_view};
ghost use Rattle.mlt_playlist.specs.Place.{entry_at};
ghost use Rattle.mlt_playlist.specs.Playlist.{Does, IsCounted, IsIndexed, IsTested};

use crate::cut::{copy_part, frames_of, narrow};
use crate::divide::{insert_reserved, sized};
use crate::joins::whole;
use crate::playlist::{MixParts, Playlist};
use crate::refused::too_few;
use mlt_base::{PlayFault, Try, UnitId};
use mlt_index::Starts;
use mlt_tree::Entry;
use std::alloc::AllocError;

/// A copy of the last n frames of an entry that has more; `None` of one that has as many.
fn copy_last(entry: &Entry, n: u32) -> Result<Option<Entry>, AllocError>
    requires { (1 ≤ n) × (n ≤ frames entry.now) × (frames entry.now < 2 ^ 32) }
    ensures { IfOk result (λ part. part ≡ last_part entry.now n) }
{
    let frames = frames_of(entry) as u32;
    if n < frames {
        Ok(Some(copy_part(entry, frames - n, frames)?))
    } else {
        Ok(None)
    }
}

/// A copy of the first n frames of an entry that has more; `None` of one that has as many.
fn copy_first(entry: &Entry, n: u32) -> Result<Option<Entry>, AllocError>
    requires { (1 ≤ n) × (n ≤ frames entry.now) }
    ensures { IfOk result (λ part. part ≡ first_part entry.now n) }
{
    if u64::from(n) < frames_of(entry) {
        Ok(Some(copy_part(entry, 0, n)?))
    } else {
        Ok(None)
    }
}

/// Takes the last n frames of an entry out, which are the copy, or all of it where there is none.
fn take_last(entries: &mut Vec<Entry>, at: usize, n: u32, copy: Option<Entry>) -> Entry
    requires there { at < length entries.old.items }
    requires range { (1 ≤ n) × (n ≤ frames (entry_at entries.old.items at)) × (frames (entry_at entries.old.items at) < 2 ^ 32) }
    requires copy { copy ≡ last_part (entry_at entries.old.items at) n }
    requires entry { IsEntry (entry_at entries.old.items at) }
    ensures part { result ≡ cut (entry_at entries.old.items at) (frames (entry_at entries.old.items at) - n) (frames (entry_at entries.old.items at)) }
    ensures rest { entries.new.items ≡ replaced entries.old.items at 1 (without_last (entry_at entries.old.items at) n) }
    ensures capacity { vec_capacity entries.new ≡ vec_capacity entries.old }
{
    match copy {
        Some(part) => {
            let entry = &mut entries[at];
            let frames = frames_of(entry) as u32;
            narrow(entry, 0, frames - n);
            part
        }
        None => entries.remove(at),
    }
}

/// Takes the first n frames of an entry out, which are the copy, or all of it where there is none.
fn take_first(entries: &mut Vec<Entry>, at: usize, n: u32, copy: Option<Entry>) -> Entry
    requires there { at < length entries.old.items }
    requires range { (1 ≤ n) × (n ≤ frames (entry_at entries.old.items at)) × (frames (entry_at entries.old.items at) < 2 ^ 32) }
    requires copy { copy ≡ first_part (entry_at entries.old.items at) n }
    requires entry { IsEntry (entry_at entries.old.items at) }
    ensures part { result ≡ cut (entry_at entries.old.items at) 0 n }
    ensures rest { entries.new.items ≡ replaced entries.old.items at 1 (without_first (entry_at entries.old.items at) n) }
    ensures capacity { vec_capacity entries.new ≡ vec_capacity entries.old }
{
    match copy {
        Some(part) => {
            let entry = &mut entries[at];
            let frames = frames_of(entry) as u32;
            narrow(entry, n, frames);
            part
        }
        None => entries.remove(at),
    }
}

/// Puts the numbers of what two neighbours become in place of theirs; all or nothing is done.
fn overlap_starts(
    starts: &mut Starts,
    entries: &[Entry],
    at: usize,
    n: u32,
) -> Result<(), AllocError>
    requires there { at + 1 < length entries.now }
    requires indexed { IsIndexed entries.now starts.old }
    requires some { 1 ≤ n }
    requires first { n ≤ frames (entry_at entries.now at) }
    requires second { n ≤ frames (entry_at entries.now (at + 1)) }
    ensures ok { OnOk result ((unit : ℕ) → starts.new ≡ map frames (replaced entries.now at 2 (mixed_of unit n (entry_at entries.now at) (entry_at entries.now (at + 1))))) }
    ensures err { OnErr result (starts.new ≡ starts.old) }
{
    let before = frames_of(&entries[at]) as u32 - n;
    let behind = frames_of(&entries[at + 1]) as u32 - n;
    let parts = [before, n, behind];
    starts.replace(
        at,
        2,
        &parts[usize::from(before == 0)..2 + usize::from(behind > 0)],
    )
}

/// Puts a clip in place of the n frames by which two neighbours overlap; all or nothing is done.
fn overlap(
    entries: &mut Vec<Entry>,
    starts: &mut Starts,
    at: usize,
    n: u32,
    clip: Entry,
) -> Result<MixParts, AllocError>
    requires there { at + 1 < length entries.old.items }
    requires indexed { IsIndexed entries.old.items starts.old }
    requires some { 1 ≤ n }
    requires first { (n ≤ frames (entry_at entries.old.items at)) × (frames (entry_at entries.old.items at) < 2 ^ 32) }
    requires second { (n ≤ frames (entry_at entries.old.items (at + 1))) × (frames (entry_at entries.old.items (at + 1)) < 2 ^ 32) }
    requires entries { All IsEntry entries.old.items }
    ensures list { OnOk result (entries.new.items ≡ replaced entries.old.items at 2 (without_last (entry_at entries.old.items at) n ++ (clip ∷ without_first (entry_at entries.old.items (at + 1)) n))) }
    ensures starts { OnOk result ((unit : ℕ) → starts.new ≡ map frames (replaced entries.old.items at 2 (mixed_of unit n (entry_at entries.old.items at) (entry_at entries.old.items (at + 1))))) }
    ensures parts { IfOk result (λ parts. mixed_view parts ≡ edit.mixed_parts n (entry_at entries.old.items at) (entry_at entries.old.items (at + 1))) }
    ensures same { OnErr result (entries.new.items ≡ entries.old.items) }
    ensures same_starts { OnErr result (starts.new ≡ starts.old) }
{
    let last = copy_last(&entries[at], n)?;
    let first = copy_first(&entries[at + 1], n)?;
    entries.reserve(usize::from(last.is_some() && first.is_some()))?;
    overlap_starts(starts, entries, at, n)?;
    let left = usize::from(last.is_some());
    let b = take_first(entries, at + 1, n, first);
    let a = take_last(entries, at, n, last);
    insert_reserved(entries, at + left, clip);
    Ok(MixParts { a, b, frames: n })
}

/// By how many frames an entry and the one behind it overlap, where n are asked for.
fn share(entries: &[Entry], at: usize, n: u32) -> u32
    requires { at + 1 < length entries.now }
    ensures { result ≡ min n (min (frames (entry_at entries.now at)) (frames (entry_at entries.now (at + 1)))) }
{
    let shorter = frames_of(&entries[at]).min(frames_of(&entries[at + 1]));
    u64::from(n).min(shorter) as u32
}

/// How many frames a list would have in which two neighbours so overlap, or why that is refused.
fn fits(entries: &[Entry], total: u32, at: usize, n: u32) -> Result<u32, PlayFault>
    requires counted { IsCounted entries.now total }
    requires there { at + 1 < length entries.now }
    requires some { 1 ≤ n }
    requires first { n ≤ frames (entry_at entries.now at) }
    requires second { n ≤ frames (entry_at entries.now (at + 1)) }
    ensures tested { (unit : ℕ) → IsTested (replaced entries.now at 2 (mixed_of unit n (entry_at entries.now at) (entry_at entries.now (at + 1)))) result }
{
    let first = usize::from(u64::from(n) < frames_of(&entries[at]));
    let second = usize::from(u64::from(n) < frames_of(&entries[at + 1]));
    sized(entries.len() - 1 + first + second, u64::from(total - n))
}

impl Playlist {
    /// Makes an entry and the one behind it overlap by n frames, or by as many as the shorter one has.
    /// What is left of the first, a clip of a unit that is made of the overlapping frames, and what is
    /// left of the second take their place. The overlapping frames are handed out.
    ///
    /// Refused are an index behind which no other entry stands (`TooFew`), then more than 100,000
    /// entries (`TooMany`).
    pub fn mix(&mut self, at: usize, n: u32, unit: UnitId) -> Result<MixParts, Try<PlayFault>>
        requires { 1 ≤ n }
        ensures { Does (edit.mix at n unit.0 self.old) self.old self.new (answer_of result) }
    {
        let count = self.entries.len();
        if count.saturating_sub(at) < 2 {
            return Err(Try::Fault(too_few(at, count, 2)));
        }
        let shared = share(&self.entries, at, n);
        fits(&self.entries, self.length(), at, shared)?;
        let clip = whole(self.alloc(), unit, shared);
        let parts = overlap(&mut self.entries, &mut self.starts, at, shared, clip)?;
        Ok(parts)
    }
}
