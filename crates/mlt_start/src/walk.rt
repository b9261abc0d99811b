//! What shows at a position, from a unit down to its sources, pushed on the way back.

ghost use Rattle.std.specs.Prelude.{◌≡◌, ◌≤◌, ◌<◌, ◌++◌, nat_eq, if◌then◌else◌, [], ◌∷◌, length, map, get_or, All};
ghost use Rattle.std.specs.List.{flat_map};
ghost use Rattle.mlt_frame.specs.declared.op.Op.TheVariants.{Absent};
ghost use Rattle.mlt_tree.specs.Ranges.{IsEntry, frames};
ghost use Rattle.mlt_tree.specs.Sizes.{ops as ops_of, ops_in, ops_of_rows};
ghost use Rattle.mlt_tree.specs.Tree.{Rows};
ghost use Rattle.mlt_tree.specs.Units.{IsGraph, IsBodyBelow, IsTractorBelow, IsTrackBelow, AreEntriesBelow, IsEntryBelow, tree_of, body_tree, parts_of, entry_tree, entries_of, track_tree, tracks_of};
ghost use Rattle.mlt_graph.specs.Graph.{HasFewTracks};
ghost use Rattle.mlt_graph.specs.Lists.{lists_in, lists_of};
ghost use Rattle.mlt_start.specs.Asked.{medium_of};
ghost use Rattle.mlt_start.specs.Code.{row_ops, plant_ops, keep_ops, planted_rows, code, code_in, rows_code, or_absent};
ghost use Rattle.mlt_start.specs.Found.{IsListOf, row_code, shown_code};
ghost use Rattle.mlt_start.specs.Pushed.{IsAbove, IsPushed};

use crate::asked::{Asked, is_hidden};
use crate::place::{frame_at, is_inside};
use crate::plan::plan_rows;
use crate::plants::{any_acting, put_keep, put_plants};
use crate::push::{put_filters, put_source};
use mlt_frame::{Op, OpStack};
use mlt_graph::Sealed;
use mlt_tree::{Body, Entry, Plant, Track};

/// Pushes what a place of an entry has, which is of a unit below this number.
#[cycle(walk)]
fn push_entry(
    sealed: &Sealed,
    asked: Asked,
    below: usize,
    entry: &Entry,
    place: u32,
    stack: &mut OpStack,
) -> bool
    requires graph { IsGraph sealed.now.units }
    requires known { below ≤ length sealed.now.units }
    requires entry_below { IsEntryBelow below entry.now }
    requires range { IsEntry entry.now }
    requires inside { place < frames entry.now }
    requires room { ops_of (entry_tree (tree_of sealed.now.units) entry.now) ≤ stack.old.spare }
    ensures { IsPushed (code (medium_of asked) (entry_tree (tree_of sealed.now.units) entry.now) place) stack.old stack.new result }
{
    match entry {
        Entry::Clip {
            unit,
            span,
            filters,
        } => {
            let at = frame_at(*span, place);
            if !push_unit(sealed, asked, unit.0 as usize, at, stack) {
                return false;
            }
            put_filters(filters.as_slice(), at, stack);
            true
        }
        Entry::Gap { .. } => false,
    }
}

/// Pushes what a position of the entries of a list of a unit has.
#[cycle(walk)]
fn push_entries(
    sealed: &Sealed,
    asked: Asked,
    unit: usize,
    list: usize,
    entries: &[Entry],
    at: u32,
    stack: &mut OpStack,
) -> bool
    requires graph { IsGraph sealed.now.units }
    requires known { unit < length sealed.now.units }
    requires entries_below { AreEntriesBelow unit entries.now }
    requires list { IsListOf sealed.now.units unit list entries.now }
    requires room { ops_in (parts_of (tree_of sealed.now.units) entries.now) ≤ stack.old.spare }
    ensures { IsPushed (code_in (medium_of asked) (parts_of (tree_of sealed.now.units) entries.now) at) stack.old stack.new result }
{
    match sealed.find(unit, list, at) {
        Some((index, place)) => push_entry(sealed, asked, unit, &entries[index], place, stack),
        None => false,
    }
}

/// Pushes what a position of a track of a unit has.
#[cycle(walk)]
fn push_track(
    sealed: &Sealed,
    asked: Asked,
    unit: usize,
    row: usize,
    track: &Track,
    at: u32,
    stack: &mut OpStack,
) -> bool
    requires graph { IsGraph sealed.now.units }
    requires known { unit < length sealed.now.units }
    requires track_below { IsTrackBelow unit track.now }
    requires list { IsListOf sealed.now.units unit row (entries_of track.now) }
    requires room { ops_of (track_tree (tree_of sealed.now.units) track.now) ≤ stack.old.spare }
    ensures { IsPushed (row_code (medium_of asked) (tree_of sealed.now.units) at track.now) stack.old stack.new result }
{
    match track {
        Track::Playlist {
            entries,
            filters,
            hide,
        } => {
            if is_hidden(asked, *hide) {
                return false;
            }
            if !push_entries(sealed, asked, unit, row, entries.as_slice(), at, stack) {
                return false;
            }
            put_filters(filters.as_slice(), at, stack);
            true
        }
        Track::Half { entry, .. } => {
            is_inside(entry, at) && push_entry(sealed, asked, unit, entry, at, stack)
        }
    }
}

/// Pushes what the highest track of a unit has that has something at a position.
#[cycle(walk)]
fn push_tracks(
    sealed: &Sealed,
    asked: Asked,
    unit: usize,
    tracks: &[Track],
    at: u32,
    stack: &mut OpStack,
) -> bool
    requires graph { IsGraph sealed.now.units }
    requires known { unit < length sealed.now.units }
    requires tracks_below { All (IsTrackBelow unit) tracks.now }
    requires lists { lists_of sealed.now.units unit ≡ map entries_of tracks.now }
    requires room { ops_of_rows (tracks_of (tree_of sealed.now.units) tracks.now) ≤ stack.old.spare }
    ensures { IsPushed (shown_code (medium_of asked) (tree_of sealed.now.units) at tracks.now) stack.old stack.new result }
{
    let mut row = tracks.len();
    while row > 0 {
        row -= 1;
        if push_track(sealed, asked, unit, row, &tracks[row], at, stack) {
            return true;
        }
    }
    false
}

/// Pushes what a position of a track of a unit has, or that it has nothing, as where it isn't wanted.
#[cycle(walk)]
fn push_row(
    sealed: &Sealed,
    asked: Asked,
    unit: usize,
    row: usize,
    track: &Track,
    wanted: bool,
    at: u32,
    stack: &mut OpStack,
)
    requires graph { IsGraph sealed.now.units }
    requires known { unit < length sealed.now.units }
    requires track_below { IsTrackBelow unit track.now }
    requires list { IsListOf sealed.now.units unit row (entries_of track.now) }
    requires some { 1 ≤ stack.old.spare }
    requires room { ops_of (track_tree (tree_of sealed.now.units) track.now) ≤ stack.old.spare }
    ensures { IsAbove (if wanted then or_absent (row_code (medium_of asked) (tree_of sealed.now.units) at track.now) else Absent ∷ []) stack.old stack.new }
{
    if !wanted || !push_track(sealed, asked, unit, row, track, at, stack) {
        stack.push_reserved(Op::Absent);
    }
}

/// Pushes a register for each track of a unit: what it has at a position where it ends in a row, else nothing.
#[cycle(walk)]
fn push_rows(
    sealed: &Sealed,
    asked: Asked,
    unit: usize,
    tracks: &[Track],
    ends: &[u32],
    shown: u32,
    at: u32,
    stack: &mut OpStack,
)
    requires graph { IsGraph sealed.now.units }
    requires known { unit < length sealed.now.units }
    requires tracks_below { All (IsTrackBelow unit) tracks.now }
    requires lists { lists_of sealed.now.units unit ≡ map entries_of tracks.now }
    requires ends { length ends.now ≡ length tracks.now }
    requires room { ops_of_rows (tracks_of (tree_of sealed.now.units) tracks.now) ≤ stack.old.spare }
    ensures { IsAbove (row_ops (λ row. nat_eq (get_or ends.now row 0) shown) 0 (rows_code (medium_of asked) (tracks_of (tree_of sealed.now.units) tracks.now) at)) stack.old stack.new }
{
    for row in 0..tracks.len() {
        let wanted = ends[row] == shown;
        push_row(sealed, asked, unit, row, &tracks[row], wanted, at, stack);
    }
}

/// Pushes the row that shows after plants: the rows that end in it, the plants that act, and the choice of it.
#[cycle(walk)]
fn push_planned(
    sealed: &Sealed,
    asked: Asked,
    unit: usize,
    tracks: &[Track],
    plants: &[Plant],
    ends: &[u32],
    shown: usize,
    at: u32,
    stack: &mut OpStack,
)
    requires graph { IsGraph sealed.now.units }
    requires known { unit < length sealed.now.units }
    requires below { IsTractorBelow unit tracks.now plants.now }
    requires lists { lists_of sealed.now.units unit ≡ map entries_of tracks.now }
    requires few { length tracks.now ≤ 256 }
    requires ends { length ends.now ≡ length tracks.now }
    requires shown { shown < length tracks.now }
    requires room { ops_of (Rows (tracks_of (tree_of sealed.now.units) tracks.now) plants.now) ≤ stack.old.spare }
    ensures { IsAbove (row_ops (λ row. nat_eq (get_or ends.now row 0) shown) 0 (rows_code (medium_of asked) (tracks_of (tree_of sealed.now.units) tracks.now) at) ++ (flat_map (plant_ops (medium_of asked) at (length tracks.now)) plants.now ++ keep_ops (length tracks.now) shown)) stack.old stack.new }
{
    push_rows(sealed, asked, unit, tracks, ends, shown as u32, at, stack);
    put_plants(asked, plants, tracks.len(), at, stack);
    put_keep(tracks.len(), shown, stack);
}

/// Pushes what a position of a unit has whose plants act there.
#[cycle(walk)]
fn push_planted(
    sealed: &Sealed,
    asked: Asked,
    unit: usize,
    tracks: &[Track],
    plants: &[Plant],
    at: u32,
    stack: &mut OpStack,
) -> bool
    requires graph { IsGraph sealed.now.units }
    requires known { unit < length sealed.now.units }
    requires below { IsTractorBelow unit tracks.now plants.now }
    requires lists { lists_of sealed.now.units unit ≡ map entries_of tracks.now }
    requires few { length tracks.now ≤ 256 }
    requires room { ops_of (Rows (tracks_of (tree_of sealed.now.units) tracks.now) plants.now) ≤ stack.old.spare }
    ensures { IsPushed (planted_rows (medium_of asked) at plants.now (rows_code (medium_of asked) (tracks_of (tree_of sealed.now.units) tracks.now) at)) stack.old stack.new result }
{
    let mut has = [false; 256];
    let mut ends = [0; 256];
    let has = &mut has[..tracks.len()];
    let ends = &mut ends[..tracks.len()];
    match plan_rows(sealed, asked, unit, tracks, plants, at, has, ends) {
        Some(shown) => {
            push_planned(sealed, asked, unit, tracks, plants, ends, shown, at, stack);
            true
        }
        None => false,
    }
}

/// Pushes what a position of tracks over each other has, by whether something planted on them acts there.
#[cycle(walk)]
fn push_tractor(
    sealed: &Sealed,
    asked: Asked,
    unit: usize,
    tracks: &[Track],
    plants: &[Plant],
    at: u32,
    stack: &mut OpStack,
) -> bool
    requires graph { IsGraph sealed.now.units }
    requires known { unit < length sealed.now.units }
    requires below { IsTractorBelow unit tracks.now plants.now }
    requires lists { lists_of sealed.now.units unit ≡ map entries_of tracks.now }
    requires few { length tracks.now ≤ 256 }
    requires room { ops_of (Rows (tracks_of (tree_of sealed.now.units) tracks.now) plants.now) ≤ stack.old.spare }
    ensures { IsPushed (code (medium_of asked) (Rows (tracks_of (tree_of sealed.now.units) tracks.now) plants.now) at) stack.old stack.new result }
{
    if any_acting(asked, plants, at) {
        push_planted(sealed, asked, unit, tracks, plants, at, stack)
    } else {
        push_tracks(sealed, asked, unit, tracks, at, stack)
    }
}

/// Pushes what a position has of what a unit is made of.
#[cycle(walk)]
fn push_body(
    sealed: &Sealed,
    asked: Asked,
    unit: usize,
    body: &Body,
    at: u32,
    stack: &mut OpStack,
) -> bool
    requires graph { IsGraph sealed.now.units }
    requires known { unit < length sealed.now.units }
    requires body_below { IsBodyBelow unit body.now }
    requires few { HasFewTracks body.now }
    requires lists { lists_of sealed.now.units unit ≡ lists_in body.now }
    requires room { ops_of (body_tree (tree_of sealed.now.units) body.now) ≤ stack.old.spare }
    ensures { IsPushed (code (medium_of asked) (body_tree (tree_of sealed.now.units) body.now) at) stack.old stack.new result }
{
    match body {
        Body::Source { no, kind, frames } => put_source(asked, *no, *kind, *frames, at, stack),
        Body::Entries { entries } => push_entries(
            sealed,
            asked,
            unit,
            0,
            entries.as_slice(),
            at,
            stack,
        ),
        Body::Tractor { tracks, plants } => push_tractor(
            sealed,
            asked,
            unit,
            tracks.as_slice(),
            plants.as_slice(),
            at,
            stack,
        ),
    }
}

/// Pushes what a position of a unit has, and tells whether it has something.
#[cycle(walk)]
pub(crate) fn push_unit(
    sealed: &Sealed,
    asked: Asked,
    unit: usize,
    at: u32,
    stack: &mut OpStack,
) -> bool
    requires known { unit < length sealed.now.units }
    requires room { ops_of (tree_of sealed.now.units unit) ≤ stack.old.spare }
    ensures { IsPushed (code (medium_of asked) (tree_of sealed.now.units unit) at) stack.old stack.new result }
{
    let node = &sealed.units()[unit];
    if !push_body(sealed, asked, unit, &node.body, at, stack) {
        return false;
    }
    put_filters(node.filters.as_slice(), at, stack);
    true
}
