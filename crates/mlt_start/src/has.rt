//! Whether there is something at a position, from a unit down to its sources. Nothing is pushed.

ghost use Rattle.std.specs.Prelude.{◌≡◌, ◌≤◌, ◌<◌, length, map, is_some, All};
ghost use Rattle.mlt_tree.specs.Ranges.{IsEntry, frames};
ghost use Rattle.mlt_tree.specs.Units.{IsBodyBelow, IsTrackBelow, AreEntriesBelow, IsEntryBelow, tree_of, body_tree, parts_of, entry_tree, entries_of, tracks_of};
ghost use Rattle.mlt_graph.specs.Lists.{lists_in, lists_of};
ghost use Rattle.mlt_start.specs.Asked.{medium_of};
ghost use Rattle.mlt_start.specs.Code.{code, code_in, rows_code};
ghost use Rattle.mlt_start.specs.Found.{IsListOf, row_code, shown_code};

use crate::asked::{Asked, gives, is_hidden};
use crate::place::{frame_at, is_inside};
use mlt_graph::Sealed;
use mlt_tree::{Body, Entry, Track};

/// Whether a place of an entry has something, which is of a unit below this number.
#[cycle(has)]
fn has_entry(sealed: &Sealed, asked: Asked, below: usize, entry: &Entry, place: u32) -> bool
    requires known { below ≤ length sealed.now.units }
    requires entry_below { IsEntryBelow below entry.now }
    requires inside { place < frames entry.now }
    ensures { result ≡ is_some (code (medium_of asked) (entry_tree (tree_of sealed.now.units) entry.now) place) }
{
    match entry {
        Entry::Clip { unit, span, .. } => {
            has_unit(sealed, asked, unit.0 as usize, frame_at(*span, place))
        }
        Entry::Gap { .. } => false,
    }
}

/// Whether a position of the entries of a list of a unit has something.
#[cycle(has)]
fn has_entries(
    sealed: &Sealed,
    asked: Asked,
    unit: usize,
    list: usize,
    entries: &[Entry],
    at: u32,
) -> bool
    requires known { unit < length sealed.now.units }
    requires entries_below { AreEntriesBelow unit entries.now }
    requires list { IsListOf sealed.now.units unit list entries.now }
    ensures { result ≡ is_some (code_in (medium_of asked) (parts_of (tree_of sealed.now.units) entries.now) at) }
{
    match sealed.find(unit, list, at) {
        Some((index, place)) => has_entry(sealed, asked, unit, &entries[index], place),
        None => false,
    }
}

/// Whether a position of a track of a unit has something.
#[cycle(has)]
fn has_track(sealed: &Sealed, asked: Asked, unit: usize, row: usize, track: &Track, at: u32) -> bool
    requires known { unit < length sealed.now.units }
    requires track_below { IsTrackBelow unit track.now }
    requires list { IsListOf sealed.now.units unit row (entries_of track.now) }
    ensures { result ≡ is_some (row_code (medium_of asked) (tree_of sealed.now.units) at track.now) }
{
    match track {
        Track::Playlist { entries, hide, .. } => {
            !is_hidden(asked, *hide)
                && has_entries(sealed, asked, unit, row, entries.as_slice(), at)
        }
        Track::Half { entry, .. } => {
            is_inside(entry, at) && has_entry(sealed, asked, unit, entry, at)
        }
    }
}

/// Whether one of the tracks of a unit has something at a position, the highest one first.
#[cycle(has)]
fn has_tracks(sealed: &Sealed, asked: Asked, unit: usize, tracks: &[Track], at: u32) -> bool
    requires known { unit < length sealed.now.units }
    requires tracks_below { All (IsTrackBelow unit) tracks.now }
    requires lists { lists_of sealed.now.units unit ≡ map entries_of tracks.now }
    ensures { result ≡ is_some (shown_code (medium_of asked) (tree_of sealed.now.units) at tracks.now) }
{
    let mut row = tracks.len();
    while row > 0 {
        row -= 1;
        if has_track(sealed, asked, unit, row, &tracks[row], at) {
            return true;
        }
    }
    false
}

/// Whether a position has something of what a unit is made of. What is planted on tracks leaves that as it is.
#[cycle(has)]
fn has_body(sealed: &Sealed, asked: Asked, unit: usize, body: &Body, at: u32) -> bool
    requires known { unit < length sealed.now.units }
    requires body_below { IsBodyBelow unit body.now }
    requires lists { lists_of sealed.now.units unit ≡ lists_in body.now }
    ensures { result ≡ is_some (code (medium_of asked) (body_tree (tree_of sealed.now.units) body.now) at) }
{
    match body {
        Body::Source { kind, frames, .. } => gives(asked, *kind) && at < *frames,
        Body::Entries { entries } => { has_entries(sealed, asked, unit, 0, entries.as_slice(), at) }
        Body::Tractor { tracks, .. } => has_tracks(sealed, asked, unit, tracks.as_slice(), at),
    }
}

/// Whether a position of a unit has something.
#[cycle(has)]
fn has_unit(sealed: &Sealed, asked: Asked, unit: usize, at: u32) -> bool
    requires known { unit < length sealed.now.units }
    ensures { result ≡ is_some (code (medium_of asked) (tree_of sealed.now.units unit) at) }
{
    let node = &sealed.units()[unit];
    has_body(sealed, asked, unit, &node.body, at)
}

/// Tells of each track of a unit whether it has something at a position.
pub(crate) fn fill_has(
    sealed: &Sealed,
    asked: Asked,
    unit: usize,
    tracks: &[Track],
    at: u32,
    has: &mut [bool],
)
    requires known { unit < length sealed.now.units }
    requires tracks_below { All (IsTrackBelow unit) tracks.now }
    requires lists { lists_of sealed.now.units unit ≡ map entries_of tracks.now }
    requires long { length has.old ≡ length tracks.now }
    ensures { has.new ≡ map is_some (rows_code (medium_of asked) (tracks_of (tree_of sealed.now.units) tracks.now) at) }
{
    for row in 0..tracks.len() {
        has[row] = has_track(sealed, asked, unit, row, &tracks[row], at);
    }
}
