//! Started frames as a caller sees them.

ghost use Rattle.std.specs.Prelude.{◌≡◌, ◌+◌, ◌≤◌, ◌<◌, ℕ, All, IfOk, OnOk};
ghost use Rattle.mlt_tree.specs.Edits.{frames_in};
ghost use Rattle.mlt_tree.specs.Units.{drafts_of, IsEntryBelow, AreEntriesBelow};

use crate::start;
use mlt_base::{Pos, SourceNo, Span, UnitId};
use mlt_frame::{Frame, Ops};
use mlt_graph::{Graph, Level, Sealed};
use mlt_pool::Pool;
use mlt_tree::{Attached, Entry, FilterSpec, Hide, ItemList, MergeSpec, SourceKind};
use std::alloc::{AllocError, Global};
use std::test::Fail;

/// Two frames of a unit, the first one with its colours inverted, and then a gap of three.
fn clip_and_gap(alloc: Global, unit: UnitId) -> Result<ItemList<Entry>, AllocError>
    ensures below { IfOk result (λ list. (count : ℕ) → unit.0 < count → AreEntriesBelow count list) }
    ensures frames { IfOk result (λ list. frames_in list ≡ 5) }
{
    let mut filters = ItemList::new(alloc);
    let filter = Attached {
        spec: FilterSpec::Invert,
        span: Span {
            first: Pos(0),
            last: Pos(0),
        },
    };
    if filters.push(filter).is_err() {
        return Err(AllocError);
    }
    let clip = Entry::Clip {
        unit,
        span: Span {
            first: Pos(0),
            last: Pos(1),
        },
        filters,
    };
    let mut list = ItemList::new(alloc);
    if list.push(clip).is_err() || list.push(Entry::Gap { frames: 3 }).is_err() {
        return Err(AllocError);
    }
    Ok(list)
}

/// A clip of a picture and a gap.
fn sealed_list(alloc: Global) -> Result<Sealed, AllocError> {
    let mut graph = Graph::new(alloc);
    let source = graph.add_source(SourceNo(3), SourceKind::Still, 2)?;
    let list = graph.add_list(clip_and_gap(alloc, source)?)?;
    match graph.seal(list) {
        Ok(sealed) => Ok(sealed),
        Err(_) => Err(AllocError),
    }
}

/// Begins a track of the first two frames of a unit.
fn add_track(level: &mut Level, unit: UnitId) -> Result<(), AllocError>
    ensures { OnOk result ((count : ℕ) → unit.0 < count → All (λ draft. All (IsEntryBelow count) draft.entries) (drafts_of level.old) → All (λ draft. All (IsEntryBelow count) draft.entries) (drafts_of level.new)) }
{
    let hide = Hide {
        video: false,
        audio: false,
    };
    if level.new_track(hide).is_err() {
        return Err(AllocError);
    }
    if level.last().append_io(unit, 2, 0, 1).is_err() {
        return Err(AllocError);
    }
    Ok(())
}

/// Two pictures over each other, of which the upper one covers the lower one at position 0, and is its alpha at 1.
fn sealed_tracks(alloc: Global) -> Result<Sealed, AllocError> {
    let mut graph = Graph::new(alloc);
    let low = graph.add_source(SourceNo(3), SourceKind::Still, 2)?;
    let high = graph.add_source(SourceNo(5), SourceKind::Still, 2)?;
    let mut level = Level::new(alloc)?;
    add_track(&mut level, low)?;
    add_track(&mut level, high)?;
    level.plant_merge(0, 1, MergeSpec::Matte, 1, Some(1))?;
    match graph.add_tractor(level) {
        Ok(tractor) => match graph.seal(tractor) {
            Ok(sealed) => Ok(sealed),
            Err(_) => Err(AllocError),
        },
        Err(_) => Err(AllocError),
    }
}

/// The position of a frame, its first source, and how many operations its picture and its sound have.
fn tell(frame: &Frame) -> (u32, Option<u32>, usize, usize) {
    let source = match frame.load_at(0) {
        Some(source) => Some(source.0),
        None => None,
    };
    (
        frame.at().0,
        source,
        frame.image().len(),
        frame.sound().len(),
    )
}

/// What the frame of a position tells, where there is one.
fn start_one(
    alloc: Global,
    sealed: &Sealed,
    at: u32,
) -> Result<Option<(u32, Option<u32>, usize, usize)>, AllocError> {
    let ops = Ops::new(alloc, sealed.ops())?;
    let mut pool = Pool::new(alloc);
    if pool.reserve(12, 1).is_err() {
        pool.close();
        return Err(AllocError);
    }
    let Some(lease) = pool.lend(100) else {
        pool.close();
        return Ok(None);
    };
    if at >= sealed.length() {
        pool.home(lease);
        pool.close();
        return Ok(None);
    }
    let frame = start(sealed, Pos(at), lease, ops);
    let told = tell(&frame);
    let _ops = frame.destroy(&mut pool);
    pool.close();
    Ok(Some(told))
}

#[test]
fn starts_what_shows(rt: HostRuntime) -> Result<(), Fail> {
    let list = sealed_list(rt.alloc())?;
    let tracks = sealed_tracks(rt.alloc())?;
    let rows = [
        (&list, 0, Some((0, Some(3), 2, 1))),
        (&list, 1, Some((1, Some(3), 1, 1))),
        (&list, 4, Some((4, None, 1, 1))),
        (&list, 5, None),
        (&tracks, 0, Some((0, Some(5), 1, 1))),
        (&tracks, 1, Some((1, Some(3), 4, 1))),
    ];
    for (sealed, at, told) in rows {
        assert_eq!(rt; start_one(rt.alloc(), sealed, at)?, told, "{at}");
    }
    Ok(())
}
