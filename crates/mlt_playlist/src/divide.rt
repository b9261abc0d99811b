//! Entries that are cut in two, where they stand.

ghost use Rattle.std.specs.Prelude.{◌≡◌, ◌+◌, ◌≤◌, ◌<◌, ◌^◌, [], ◌∷◌, All, length, map, sum, option_to_list, vec_len, vec_capacity, OnOk, OnErr};
ghost use Rattle.mlt_index.specs.Starts as numbers;
ghost use Rattle.mlt_tree.specs.Edits.{frames_in, grown, replaced};
ghost use Rattle.mlt_tree.specs.Ranges.{IsEntry, frames as frames_of};
ghost use Rattle.mlt_playlist.specs.Place.{divided, divided_numbers, entry_at, sized};
ghost use Rattle.mlt_playlist.specs.Playlist.{Does, IsCounted, IsIndexed, IsList, IsTested};

use crate::cut::{copy_part, frames_of, narrow};
use crate::playlist::Playlist;
use crate::splice::length_of;
use mlt_base::limits::MOST_ENTRIES;
use mlt_base::{PlayFault, Try};
use mlt_index::Starts;
use mlt_tree::Entry;
use std::alloc::AllocError;

/// The number of frames of a list with so many entries and frames, or why there is no such list.
pub(crate) fn sized(count: usize, frames: u64) -> Result<u32, PlayFault>
    ensures { result ≡ sized count frames }
{
    if count > MOST_ENTRIES as usize {
        return Err(PlayFault::TooMany {
            limit: MOST_ENTRIES,
        });
    }
    length_of(frames)
}

/// How many entries there are, none or one, and how many frames.
fn size_of_some(entry: &Option<Entry>) -> (usize, u64)
    ensures count { result.0 ≡ length (option_to_list entry.now) }
    ensures frames { result.1 ≡ frames_in (option_to_list entry.now) }
    ensures few { result.0 ≤ 1 }
    ensures short { result.1 ≤ 2 ^ 32 }
{
    match entry {
        Some(entry) => (1, frames_of(entry)),
        None => (0, 0),
    }
}

/// Puts an entry at an index, where there is room for it.
pub(crate) fn insert_reserved(entries: &mut Vec<Entry>, at: usize, entry: Entry)
    requires { (at ≤ length entries.old.items) × (vec_len entries.old < vec_capacity entries.old) }
    ensures items { entries.new.items ≡ replaced entries.old.items at 0 (entry ∷ []) }
    ensures len { vec_len entries.new ≡ vec_len entries.old + 1 }
    ensures capacity { vec_capacity entries.old ≤ vec_capacity entries.new }
{
    match entries.insert(at, entry) {
        Ok(()) => {}
        Err(_) => unreachable!(),
    }
}

/// Puts an entry at an index, if there is one, where there is room for it.
fn insert_some(entries: &mut Vec<Entry>, at: usize, entry: Option<Entry>)
    requires { (at ≤ length entries.old.items) × (vec_len entries.old + length (option_to_list entry) ≤ vec_capacity entries.old) }
    ensures { entries.new.items ≡ replaced entries.old.items at 0 (option_to_list entry) }
{
    if let Some(entry) = entry {
        insert_reserved(entries, at, entry);
    }
}

/// Puts the numbers of two parts, and of an entry between them, in place of one; all or nothing.
fn divide_start(
    starts: &mut Starts,
    at: usize,
    first: u32,
    between: &Option<Entry>,
    last: u32,
) -> Result<(), AllocError>
    requires there { at < length starts.old }
    requires some { (1 ≤ first) × (1 ≤ last) }
    requires between { All IsEntry (option_to_list between.now) }
    requires short { sum (numbers.replaced starts.old at 1 (divided_numbers first (option_to_list between.now) last)) < 2 ^ 31 }
    ensures ok { OnOk result (starts.new ≡ numbers.replaced starts.old at 1 (divided_numbers first (option_to_list between.now) last)) }
    ensures err { OnErr result (starts.new ≡ starts.old) }
{
    match between {
        Some(entry) => starts.replace(at, 1, &[first, frames_of(entry) as u32, last]),
        None => starts.replace(at, 1, &[first, last]),
    }
}

/// Cuts an entry in two, with another, if there is one, between them; all or nothing is done.
fn cut_in_two(
    entries: &mut Vec<Entry>,
    starts: &mut Starts,
    at: usize,
    place: u32,
    from: u32,
    between: Option<Entry>,
) -> Result<(), AllocError>
    requires there { at < length entries.old.items }
    requires indexed { IsIndexed entries.old.items starts.old }
    requires places { (1 ≤ place) × (place ≤ from) × (from < frames_of (entry_at entries.old.items at)) }
    requires between { All IsEntry (option_to_list between) }
    requires short { frames_of (entry_at entries.old.items at) < 2 ^ 32 }
    requires list { IsList (replaced entries.old.items at 1 (divided (entry_at entries.old.items at) place from (option_to_list between))) }
    ensures divided { OnOk result (entries.new.items ≡ replaced entries.old.items at 1 (divided (entry_at entries.old.items at) place from (option_to_list between))) }
    ensures starts { OnOk result (starts.new ≡ map frames_of (replaced entries.old.items at 1 (divided (entry_at entries.old.items at) place from (option_to_list between)))) }
    ensures same { OnErr result (entries.new.items ≡ entries.old.items) }
    ensures same_starts { OnErr result (starts.new ≡ starts.old) }
{
    let entry = &entries[at];
    let frames = frames_of(entry) as u32;
    let rest = copy_part(entry, from, frames)?;
    entries.reserve(1 + usize::from(between.is_some()))?;
    divide_start(starts, at, place, &between, frames - from)?;
    narrow(&mut entries[at], 0, place);
    insert_reserved(entries, at + 1, rest);
    insert_some(entries, at + 1, between);
    Ok(())
}

/// How many frames the entries would have where one is so cut in two, or why that is refused.
fn fits(
    entries: &[Entry],
    frames: u32,
    at: usize,
    place: u32,
    from: u32,
    between: &Option<Entry>,
) -> Result<u32, PlayFault>
    requires counted { IsCounted entries.now frames }
    requires there { at < length entries.now }
    requires places { (1 ≤ place) × (place ≤ from) × (from < frames_of (entry_at entries.now at)) }
    requires between { All IsEntry (option_to_list between.now) }
    ensures tested { IsTested (replaced entries.now at 1 (divided (entry_at entries.now at) place from (option_to_list between.now))) result }
{
    let (count, added) = size_of_some(between);
    let all = u64::from(frames) + added - u64::from(from - place);
    sized(entries.len() + 1 + count, all)
}

impl Playlist {
    /// Leaves of an entry its frames before a place, and puts another entry, if there is one, and its
    /// frames from a place on behind them.
    ///
    /// Refused are more than 100,000 entries, then 2^31 frames or more; the list then stays.
    pub(crate) fn divide(
        &mut self,
        at: usize,
        place: u32,
        from: u32,
        between: Option<Entry>,
    ) -> Result<(), Try<PlayFault>>
        requires there { at < length self.old }
        requires places { (1 ≤ place) × (place ≤ from) × (from < frames_of (entry_at self.old at)) }
        requires between { All IsEntry (option_to_list between) }
        ensures { Does (grown tt (replaced self.old at 1 (divided (entry_at self.old at) place from (option_to_list between)))) self.old self.new result }
    {
        fits(&self.entries, self.length(), at, place, from, &between)?;
        cut_in_two(
            &mut self.entries,
            &mut self.starts,
            at,
            place,
            from,
            between,
        )?;
        Ok(())
    }
}
