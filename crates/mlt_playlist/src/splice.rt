//! Other entries in place of some: the edits that put entries in are built on this.

ghost use Rattle.std.specs.Prelude.{◌≡◌, ◌+◌, ◌-◌, ◌^◌, ◌≤◌, ◌<◌, [], ◌∷◌, ◌++◌, All, length, map, take, drop, vec_len, vec_capacity, OnOk, OnErr, IfOk, IfErr};
ghost use Rattle.mlt_base.specs.declared.limits.TheConstants.{MOST_ENTRIES};
ghost use Rattle.mlt_tree.specs.Edits.{frames_in, grown, replaced};
ghost use Rattle.mlt_tree.specs.Ranges.{IsEntry, frames};
ghost use Rattle.mlt_playlist.specs.Playlist.{Does, IsIndexed, IsLength};

use crate::cut::frames_of;
use crate::divide::{insert_reserved, sized};
use crate::index::frames_of_each;
use crate::playlist::{EntryList, Playlist};
use mlt_base::{PlayFault, Try};
use mlt_index::Starts;
use mlt_tree::{Entry, ItemList};
use std::alloc::AllocError;

/// Brings the last m entries of a part before the others, and the first n of these behind all.
fn turn(part: &mut [Entry], n: usize, m: usize)
    requires { n + m ≤ length part.old }
    ensures { part.new ≡ drop (length part.old - m) part.old ++ (drop n (take (length part.old - m) part.old) ++ take n part.old) }
{
    let others = part.len() - m;
    part.rotate_left(others);
    part[m..].rotate_left(n);
}

/// Puts entries in place of n from an index on, and those n behind all, where there is room for both.
fn exchange(entries: &mut Vec<Entry>, at: usize, n: usize, new: &mut Vec<Entry>)
    requires range { at + n ≤ length entries.old.items }
    requires room { vec_len entries.old + vec_len new.old ≤ vec_capacity entries.old }
    ensures exchanged { entries.new.items ≡ replaced entries.old.items at n new.old.items ++ take n (drop at entries.old.items) }
    ensures emptied { new.new.items ≡ [] }
    ensures capacity { vec_capacity new.new ≡ vec_capacity new.old }
{
    let m = new.len();
    match entries.append(new) {
        Ok(()) => {}
        Err(_) => unreachable!(),
    }
    turn(&mut entries[at..], n, m);
}

/// Moves the last n entries to another list, which is empty and has room for them.
fn move_last(entries: &mut Vec<Entry>, n: usize, out: &mut Vec<Entry>)
    requires range { n ≤ length entries.old.items }
    requires empty { out.old.items ≡ [] }
    requires room { n ≤ vec_capacity out.old }
    ensures left { entries.new.items ≡ take (length entries.old.items - n) entries.old.items }
    ensures moved { out.new.items ≡ drop (length entries.old.items - n) entries.old.items }
{
    for _ in 0..n {
        if let Some(entry) = entries.pop() {
            out.push_reserved(entry);
        }
    }
    out.reverse();
}

/// Trades entries for n of a list from an index on; all or nothing is done.
fn trade(
    entries: &mut Vec<Entry>,
    starts: &mut Starts,
    at: usize,
    n: usize,
    new: &mut Vec<Entry>,
) -> Result<(), AllocError>
    requires range { at + n ≤ length entries.old.items }
    requires indexed { IsIndexed entries.old.items starts.old }
    requires new { All IsEntry new.old.items }
    requires few { length (replaced entries.old.items at n new.old.items) ≤ MOST_ENTRIES }
    requires short { frames_in (replaced entries.old.items at n new.old.items) < 2 ^ 31 }
    ensures entries { OnOk result (entries.new.items ≡ replaced entries.old.items at n new.old.items) }
    ensures starts { OnOk result (starts.new ≡ map frames (replaced entries.old.items at n new.old.items)) }
    ensures handed_out { OnOk result (new.new.items ≡ take n (drop at entries.old.items)) }
    ensures same { OnErr result (entries.new.items ≡ entries.old.items) }
    ensures same_starts { OnErr result (starts.new ≡ starts.old) }
    ensures handed_back { OnErr result (new.new.items ≡ new.old.items) }
{
    let frames = frames_of_each(*entries.allocator(), new)?;
    new.reserve(n.saturating_sub(new.len()))?;
    entries.reserve(new.len())?;
    starts.replace(at, n, &frames)?;
    exchange(entries, at, n, new);
    move_last(entries, n, new);
    Ok(())
}

/// The number of frames of a list, where it is below 2^31.
pub(crate) fn length_of(frames: u64) -> Result<u32, PlayFault>
    ensures { IsLength frames result }
{
    if frames < 1 << 31 {
        Ok(frames as u32)
    } else {
        Err(PlayFault::TooLong { frames })
    }
}

impl Playlist {
    /// Puts one entry before that at an index, or behind all.
    ///
    /// Refused are more than 100,000 entries, then 2^31 frames or more; the list then stays.
    pub(crate) fn put_one(&mut self, at: usize, entry: Entry) -> Result<(), Try<PlayFault>>
        requires range { at ≤ length self.old }
        requires entry { IsEntry entry }
        ensures { Does (grown tt (replaced self.old at 0 (entry ∷ []))) self.old self.new result }
    {
        let frames = frames_of(&entry);
        sized(self.entries.len() + 1, u64::from(self.length()) + frames)?;
        self.entries.reserve(1)?;
        self.starts.replace(at, 0, &[frames as u32])?;
        insert_reserved(&mut self.entries, at, entry);
        Ok(())
    }

    /// Puts entries in place of n from an index on, and hands those out. The new list has at most
    /// 100,000 entries and fewer than 2^31 frames.
    ///
    /// Where memory is wanted, the new entries come back, and the list is as it was.
    pub fn splice(
        &mut self,
        at: usize,
        n: usize,
        new: EntryList,
    ) -> Result<EntryList, (EntryList, AllocError)>
        requires range { at + n ≤ length self.old }
        requires entries { All IsEntry new }
        requires few { length (replaced self.old at n new) ≤ MOST_ENTRIES }
        requires short { frames_in (replaced self.old at n new) < 2 ^ 31 }
        ensures list { OnOk result (self.new ≡ replaced self.old at n new) }
        ensures handed_out { IfOk result (λ out. out ≡ take n (drop at self.old)) }
        ensures same { OnErr result (self.new ≡ self.old) }
        ensures handed_back { IfErr result (λ e. e.0 ≡ new) }
    {
        let mut new = new.into_vec();
        match trade(&mut self.entries, &mut self.starts, at, n, &mut new) {
            Ok(()) => Ok(ItemList::from_vec(new)),
            Err(error) => Err((ItemList::from_vec(new), error)),
        }
    }
}
