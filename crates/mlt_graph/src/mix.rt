//! The unit of a mix: two halves over each other, and the merges of them.

ghost use Rattle.std.specs.Prelude.{◌≡◌, ◌≤◌, ◌<◌, ◌^◌, [], ◌∷◌, length, IfOk, OnOk, OnErr};
ghost use Rattle.mlt_tree.specs.Ranges.{IsEntry, frames};
ghost use Rattle.mlt_tree.specs.Units.{mix_frames, with_merge, AreEntriesBelow};
ghost use Rattle.mlt_tree.specs.declared.node.Track.TheVariants.{Half};
ghost use Rattle.mlt_graph.specs.Sizes.{mix_size};

use crate::size::Size;
use mlt_base::{Pos, Span};
use mlt_index::Starts;
use mlt_playlist::starts_of;
use mlt_tree::{Body, Entry, ItemList, MergeSpec, Node, Plant, Track};
use std::alloc::{AllocError, Global};
use std::slice::from_ref;

/// The size of the mix of two entries, whose units are in the table.
pub(crate) fn size_of_mix(table: &[Size], a: &Entry, b: &Entry) -> Size
    requires { AreEntriesBelow (length table.now) (a.now ∷ b.now ∷ []) }
    ensures { result ≡ mix_size table.now a.now b.now }
{
    let lower = Size::of_entry(table, a);
    lower.under(Size::of_entry(table, b)).tractor(2)
}

/// The tracks of a mix over so many frames.
pub(crate) fn halves(
    alloc: Global,
    a: Entry,
    b: Entry,
    frames: u32,
) -> Result<ItemList<Track>, AllocError>
    ensures { IfOk result (λ tracks. tracks ≡ Half a frames ∷ Half b frames ∷ []) }
{
    let mut tracks = Vec::with_capacity(alloc, 2)?;
    tracks.push(Track::Half { entry: a, frames })?;
    tracks.push(Track::Half { entry: b, frames })?;
    Ok(ItemList::from_vec(tracks))
}

/// Where the entries of the halves begin.
pub(crate) fn both_starts(
    alloc: Global,
    a: &Entry,
    b: &Entry,
) -> Result<ItemList<Starts>, AllocError>
    requires ranges { IsEntry a.now × IsEntry b.now }
    requires short { (frames a.now < 2 ^ 31) × (frames b.now < 2 ^ 31) }
    ensures { IfOk result (λ list. list ≡ (frames a.now ∷ []) ∷ (frames b.now ∷ []) ∷ []) }
{
    let mut list = Vec::with_capacity(alloc, 2)?;
    list.push(starts_of(alloc, from_ref(a))?)?;
    list.push(starts_of(alloc, from_ref(b))?)?;
    Ok(ItemList::from_vec(list))
}

/// Over how many frames a mix is, as its first half says, and 0 of any other unit.
fn mix_frames(body: &Body) -> u32
    ensures { result ≡ mix_frames body.now }
{
    let Body::Tractor { tracks, .. } = body else {
        return 0;
    };
    match tracks.item(0) {
        Some(Track::Half { frames, .. }) => *frames,
        _ => 0,
    }
}

/// Puts a merge of the halves of a mix, over as many frames as the mix is, behind what is planted on them. A unit
/// that is not of tracks stays as it is.
pub(crate) fn push_mixer(node: &mut Node, spec: MergeSpec) -> Result<(), AllocError>
    requires { 1 ≤ mix_frames node.old.body }
    ensures ok { OnOk result (node.new ≡ with_merge node.old spec) }
    ensures err { OnErr result (node.new ≡ node.old) }
    ensures short { mix_frames node.old.body < 2 ^ 32 }
{
    let frames = mix_frames(&node.body);
    let Body::Tractor { plants, .. } = &mut node.body else {
        return Ok(());
    };
    let span = Span {
        first: Pos(0),
        last: Pos(frames - 1),
    };
    match plants.push(Plant::Between {
        a: 0,
        b: 1,
        spec,
        span,
    }) {
        Ok(()) => Ok(()),
        Err(_) => Err(AllocError),
    }
}
