//! Filters of a track, and plants on tracks, that become those of a tractor.

ghost use Rattle.std.specs.Prelude.{◌≡◌, map, IfOk};
ghost use Rattle.mlt_tree.specs.Units.{span_within, attached_within, plant_within};

use mlt_base::{Pos, Span};
use mlt_tree::{Attached, FilterList, ItemList, Pending, PendingPlant, Plant};
use std::alloc::{AllocError, Global};

/// Positions among so many frames; where no last one was given they go to the end of the frames.
fn span_within(frames: u32, first: u32, last: Option<u32>) -> Span
    ensures { result ≡ span_within frames first last }
{
    let end = first.max(frames.saturating_sub(1));
    Span {
        first: Pos(first),
        last: Pos(last.unwrap_or(end)),
    }
}

/// A filter on a track of so many frames.
fn attached(frames: u32, filter: Pending) -> Attached
    ensures { result ≡ attached_within frames filter }
{
    let Pending { spec, first, last } = filter;
    let span = span_within(frames, first, last);
    Attached { spec, span }
}

/// The filters on a track of so many frames, in their order.
pub(crate) fn attached_all(
    alloc: Global,
    frames: u32,
    filters: ItemList<Pending>,
) -> Result<FilterList, AllocError>
    ensures { IfOk result (λ all. all ≡ map (attached_within frames) filters) }
{
    let filters = filters.into_vec();
    let mut all = Vec::with_capacity(alloc, filters.len())?;
    for filter in filters {
        all.push(attached(frames, filter))?;
    }
    Ok(ItemList::from_vec(all))
}

/// A plant on the tracks of a tractor of so many frames.
fn planted(frames: u32, plant: PendingPlant) -> Plant
    ensures { result ≡ plant_within frames plant }
{
    match plant {
        PendingPlant::OnTrack {
            track,
            spec,
            first,
            last,
        } => Plant::OnTrack {
            track,
            spec,
            span: span_within(frames, first, last),
        },
        PendingPlant::Between {
            a,
            b,
            spec,
            first,
            last,
        } => Plant::Between {
            a,
            b,
            spec,
            span: span_within(frames, first, last),
        },
    }
}

/// The plants on the tracks of a tractor of so many frames, in their order.
pub(crate) fn planted_all(
    alloc: Global,
    frames: u32,
    plants: ItemList<PendingPlant>,
) -> Result<ItemList<Plant>, AllocError>
    ensures { IfOk result (λ all. all ≡ map (plant_within frames) plants) }
{
    let plants = plants.into_vec();
    let mut all = Vec::with_capacity(alloc, plants.len())?;
    for plant in plants {
        all.push(planted(frames, plant))?;
    }
    Ok(ItemList::from_vec(all))
}
