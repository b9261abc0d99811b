//! What is planted on tracks: which plants act, and their operations on the registers of the tracks.

ghost use Rattle.std.specs.Prelude.{◌≡◌, ◌≤◌, ◌<◌, ◌-◌, length, All};
ghost use Rattle.std.specs.List.{flat_map, list_any};
ghost use Rattle.mlt_tree.specs.Ranges.{IsPlant};
ghost use Rattle.mlt_tree.specs.Units.{IsOnTracks};
ghost use Rattle.mlt_start.specs.Asked.{medium_of};
ghost use Rattle.mlt_start.specs.Code.{merges_at, acts, plant_ops, keep_ops};
ghost use Rattle.mlt_start.specs.Pushed.{IsAbove};

use crate::asked::{Asked, is_merged};
use crate::push::is_in;
use mlt_base::Span;
use mlt_frame::{Op, OpStack};
use mlt_tree::{MergeSpec, Plant};

/// Whether a merge of two tracks is one of the medium, and its span has a position.
pub(crate) fn is_merging(asked: Asked, spec: &MergeSpec, span: Span, at: u32) -> bool
    ensures { result ≡ merges_at (medium_of asked) at spec.now span }
{
    is_in(span, at) && is_merged(asked, spec)
}

/// Whether a plant acts at a position.
fn is_acting(asked: Asked, plant: &Plant, at: u32) -> bool
    ensures { result ≡ acts (medium_of asked) at plant.now }
{
    match plant {
        Plant::OnTrack { span, .. } => is_in(*span, at),
        Plant::Between { spec, span, .. } => is_merging(asked, spec, *span, at),
    }
}

/// Whether one of these plants acts at a position.
pub(crate) fn any_acting(asked: Asked, plants: &[Plant], at: u32) -> bool
    ensures { result ≡ list_any (acts (medium_of asked) at) plants.now }
{
    for index in 0..plants.len() {
        if is_acting(asked, &plants[index], at) {
            return true;
        }
    }
    false
}

/// The register of one of `count` rows, counted from the top one.
fn depth_of(count: usize, row: u32) -> u16
    requires few { count ≤ 256 }
    requires there { row < count }
    ensures { result ≡ count - 1 - row }
{
    (count - 1 - row as usize) as u16
}

/// Pushes a plant on `count` rows, where it acts at a position.
fn put_plant(asked: Asked, plant: &Plant, count: usize, at: u32, ops: &mut OpStack)
    requires few { count ≤ 256 }
    requires range { IsPlant plant.now }
    requires on_tracks { IsOnTracks count plant.now }
    requires room { 1 ≤ ops.old.spare }
    ensures { IsAbove (plant_ops (medium_of asked) at count plant.now) ops.old ops.new }
{
    match plant {
        Plant::OnTrack { track, spec, span } => {
            if is_in(*span, at) {
                ops.push_reserved(Op::Filter {
                    depth: depth_of(count, *track),
                    step: spec.step(at - span.first.0),
                });
            }
        }
        Plant::Between { a, b, spec, span } => {
            if is_merging(asked, spec, *span, at) {
                ops.push_reserved(Op::Merge {
                    a: depth_of(count, *a),
                    b: depth_of(count, *b),
                    step: spec.step(at - span.first.0, span.last.0 - span.first.0 + 1),
                });
            }
        }
    }
}

/// Pushes the plants on `count` rows that act at a position, in their order.
pub(crate) fn put_plants(asked: Asked, plants: &[Plant], count: usize, at: u32, ops: &mut OpStack)
    requires few { count ≤ 256 }
    requires ranges { All IsPlant plants.now }
    requires on_tracks { All (IsOnTracks count) plants.now }
    requires room { length plants.now ≤ ops.old.spare }
    ensures { IsAbove (flat_map (plant_ops (medium_of asked) at count) plants.now) ops.old ops.new }
{
    for index in 0..plants.len() {
        put_plant(asked, &plants[index], count, at, ops);
    }
}

/// Pushes the choice of one of `count` rows, where there is more than one.
pub(crate) fn put_keep(count: usize, row: usize, ops: &mut OpStack)
    requires few { count ≤ 256 }
    requires there { row < count }
    requires room { length (keep_ops count row) ≤ ops.old.spare }
    ensures { IsAbove (keep_ops count row) ops.old ops.new }
{
    if count > 1 {
        ops.push_reserved(Op::Keep {
            row: row as u16,
            count: count as u16,
        });
    }
}
