//! Gaps that stand next to each other.

ghost use Rattle.std.specs.Prelude.{◌≡◌, ◌+◌, ◌≤◌, ◌<◌, ◌^◌, length, map, take, drop};
ghost use Rattle.mlt_tree.specs.Edits as edit;
ghost use Rattle.mlt_tree.specs.Edits.{frames_in, gaps_merged, without_last_gap};
ghost use Rattle.mlt_tree.specs.Ranges.{frames};
ghost use Rattle.mlt_playlist.specs.Gaps.{IsMergedFrom, both_gaps, pushed_at};
ghost use Rattle.mlt_playlist.specs.Playlist.{Does, IsIndexed, IsList};

use crate::index::exchange_starts;
use crate::playlist::Playlist;
use mlt_base::{PlayFault, Try};
use mlt_index::Starts;
use mlt_tree::Entry;

/// The frames of two gaps together; `None` where one is a clip.
fn both_gaps(a: &Entry, b: &Entry) -> Option<u32>
    requires { frames a.now + frames b.now < 2 ^ 31 }
    ensures { result ≡ both_gaps a.now b.now }
{
    match (a, b) {
        (Entry::Gap { frames: first }, Entry::Gap { frames: second }) => Some(*first + *second),
        _ => None,
    }
}

/// Keeps one more entry behind the first ones, two gaps as one, and gives how many are kept then.
fn keep_one(entries: &mut [Entry], kept: usize, at: usize) -> usize
    requires range { (kept ≤ at) × (at < length entries.old) }
    requires short { frames_in (take kept entries.old) + frames_in (drop at entries.old) < 2 ^ 31 }
    ensures count { result ≤ at + 1 }
    ensures kept { take result entries.new ≡ pushed_at (take kept entries.old) entries.old at }
    ensures rest { drop (at + 1) entries.new ≡ drop (at + 1) entries.old }
    ensures len { length entries.new ≡ length entries.old }
{
    if kept == 0 {
        entries.swap(0, at);
        return 1;
    }
    let Some(frames) = both_gaps(&entries[kept - 1], &entries[at]) else {
        entries.swap(kept, at);
        return kept + 1;
    };
    entries[kept - 1] = Entry::Gap { frames };
    kept
}

/// Makes neighbouring gaps one, brings what is left to the front, and gives how many entries it is.
fn merge_front(entries: &mut [Entry]) -> usize
    requires { frames_in entries.old < 2 ^ 31 }
    ensures merged { take result entries.new ≡ gaps_merged entries.old }
    ensures len { length entries.new ≡ length entries.old }
{
    let mut kept = 0;
    for at in 0..entries.len() {
        kept = keep_one(entries, kept, at);
    }
    kept
}

/// Makes neighbouring gaps one.
fn merge(entries: &mut Vec<Entry>)
    requires { frames_in entries.old.items < 2 ^ 31 }
    ensures { entries.new.items ≡ gaps_merged entries.old.items }
{
    let kept = merge_front(entries);
    entries.truncate(kept);
}

/// Joins the number of a gap with that of the gap behind it, and gives the number that is there then.
fn merge_start(starts: &mut Starts, entries: &[Entry], at: usize, behind: u32) -> u32
    requires there { at < length entries.now }
    requires list { IsList entries.now }
    requires merged { IsMergedFrom entries.now (at + 1) starts.old behind }
    ensures { IsMergedFrom entries.now at starts.new result }
{
    let Entry::Gap { frames } = &entries[at] else {
        return 0;
    };
    let both = *frames + behind;
    if behind > 0 {
        exchange_starts(starts, at, 2, &[both]);
    }
    both
}

/// Puts the numbers of neighbouring gaps as one.
fn merge_starts(starts: &mut Starts, entries: &[Entry])
    requires { IsIndexed entries.now starts.old }
    ensures { starts.new ≡ map frames (gaps_merged entries.now) }
{
    let mut behind = 0;
    let mut at = entries.len();
    while at > 0 {
        at -= 1;
        behind = merge_start(starts, entries, at, behind);
    }
}

/// Lets the last entry go where it is a gap.
fn drop_last_gap(entries: &mut Vec<Entry>)
    ensures { entries.new.items ≡ without_last_gap entries.old.items }
{
    match entries.last() {
        Some(Entry::Gap { .. }) => entries.truncate(entries.len() - 1),
        Some(Entry::Clip { .. }) => {}
        None => {}
    }
}

impl Playlist {
    /// Makes neighbouring gaps one, and takes a gap at the end away unless it is to be kept. It takes
    /// no memory.
    pub fn consolidate_blanks(&mut self, keep: bool) -> Result<(), Try<PlayFault>>
        ensures { Does (edit.consolidate_blanks keep self.old) self.old self.new result }
    {
        merge_starts(&mut self.starts, &self.entries);
        merge(&mut self.entries);
        if !keep {
            let count = self.entries.len();
            drop_last_gap(&mut self.entries);
            let left = self.entries.len();
            exchange_starts(&mut self.starts, left, count - left, &[]);
        }
        Ok(())
    }
}
