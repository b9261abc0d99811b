//! Which tracks end where, as plants act on them: a merge puts what one has into another. Nothing is pushed, and no
//! memory is taken.

ghost use Rattle.std.specs.Prelude.{◌≡◌, ◌≤◌, ◌<◌, ℕ, nat_eq, if◌then◌else◌, length, map, fold, get_or, is_some, All};
ghost use Rattle.mlt_tree.specs.Units.{IsOnTracks, IsTractorBelow, tree_of, entries_of, tracks_of};
ghost use Rattle.mlt_graph.specs.Lists.{lists_of};
ghost use Rattle.mlt_start.specs.Asked.{medium_of};
ghost use Rattle.mlt_start.specs.Code.{has_after, goes, ends_in, highest, rows_code};

use crate::asked::Asked;
use crate::has::fill_has;
use crate::plants::is_merging;
use mlt_graph::Sealed;
use mlt_tree::{Plant, Track};

/// Numbers rows from 0: at first each ends in itself.
fn number_rows(ends: &mut [u32])
    requires few { length ends.old ≤ 256 }
    ensures long { length ends.new ≡ length ends.old }
    ensures each { (row : ℕ) → row < length ends.new → get_or ends.new row 0 ≡ row }
{
    for row in 0..ends.len() {
        ends[row] = row as u32;
    }
}

/// The row in which something ends that ended in `row`, where what row `b` has goes to row `a`.
fn redirected(row: u32, a: u32, b: u32) -> u32
    ensures { result ≡ (if nat_eq row b then a else row) }
{
    if row == b { a } else { row }
}

/// What ends in row `b` ends in row `a`.
fn redirect(ends: &mut [u32], a: u32, b: u32)
    ensures { ends.new ≡ map (λ row. if nat_eq row b then a else row) ends.old }
{
    for row in 0..ends.len() {
        let end = ends[row];
        ends[row] = redirected(end, a, b);
    }
}

/// Follows one plant: a merge that acts at a position moves what row `b` has into row `a`.
fn follow_one(asked: Asked, plant: &Plant, at: u32, has: &mut [bool], ends: &mut [u32])
    requires on_tracks { IsOnTracks (length has.old) plant.now }
    ensures has { has.new ≡ has_after (medium_of asked) at has.old plant.now }
    ensures ends { ends.new ≡ map (λ row. goes (medium_of asked) at has.old row plant.now) ends.old }
{
    match plant {
        Plant::OnTrack { .. } => {}
        Plant::Between { a, b, spec, span } => {
            if is_merging(asked, spec, *span, at) && has[*b as usize] {
                has[*a as usize] = true;
                has[*b as usize] = false;
                redirect(ends, *a, *b);
            }
        }
    }
}

/// Follows plants in their order: afterwards it is known which rows have something, and in which row each
/// ends.
fn follow_plants(asked: Asked, plants: &[Plant], at: u32, has: &mut [bool], ends: &mut [u32])
    requires on_tracks { All (IsOnTracks (length has.old)) plants.now }
    ensures has { has.new ≡ fold (has_after (medium_of asked) at) has.old plants.now }
    ensures ends { ends.new ≡ map (ends_in (medium_of asked) at has.old plants.now) ends.old }
{
    for index in 0..plants.len() {
        follow_one(asked, &plants[index], at, has, ends);
    }
}

/// The highest row that has something.
fn highest_row(has: &[bool]) -> Option<usize>
    ensures { result ≡ highest has.now }
{
    let mut row = has.len();
    while row > 0 {
        row -= 1;
        if has[row] {
            return Some(row);
        }
    }
    None
}

/// Works out which row of a unit with plants shows at a position, and in which row each ends.
pub(crate) fn plan_rows(
    sealed: &Sealed,
    asked: Asked,
    unit: usize,
    tracks: &[Track],
    plants: &[Plant],
    at: u32,
    has: &mut [bool],
    ends: &mut [u32],
) -> Option<usize>
    requires known { unit < length sealed.now.units }
    requires below { IsTractorBelow unit tracks.now plants.now }
    requires lists { lists_of sealed.now.units unit ≡ map entries_of tracks.now }
    requires few { length tracks.now ≤ 256 }
    requires long { (length has.old ≡ length tracks.now) × (length ends.old ≡ length tracks.now) }
    ensures shown { result ≡ highest (fold (has_after (medium_of asked) at) (map is_some (rows_code (medium_of asked) (tracks_of (tree_of sealed.now.units) tracks.now) at)) plants.now) }
    ensures ends { (row : ℕ) → row < length tracks.now → get_or ends.new row 0 ≡ ends_in (medium_of asked) at (map is_some (rows_code (medium_of asked) (tracks_of (tree_of sealed.now.units) tracks.now) at)) plants.now row }
    ensures long { length ends.new ≡ length tracks.now }
{
    fill_has(sealed, asked, unit, tracks, at, has);
    number_rows(ends);
    follow_plants(asked, plants, at, has, ends);
    highest_row(has)
}
