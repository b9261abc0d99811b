//! A graph as its caller sees it.

ghost use Rattle.std.specs.Prelude.{◌≡◌, ◌+◌, ◌-◌, ◌≤◌, ◌<◌, ◌^◌, ℕ, [], ◌∷◌, length, All, IfOk, OnOk};
ghost use Rattle.mlt_base.specs.Span.{IsSpan};
ghost use Rattle.mlt_tree.specs.Edits.{frames_in};
ghost use Rattle.mlt_tree.specs.Ranges.{IsAttached};
ghost use Rattle.mlt_tree.specs.Units.{drafts_of, IsEntryBelow, AreEntriesBelow, IsMix};

use crate::{Format, Graph, GraphFault, Level, Output, Pix, pairs_of, unit_of};
use mlt_base::{Pos, Profile, Rate, SourceNo, Span, Text, UnitId};
use mlt_playlist::{EntryList, MixParts};
use mlt_tree::{Attached, Entry, FilterList, FilterSpec, Hide, ItemList, MergeSpec, SourceKind};
use std::alloc::{AllocError, Global};
use std::test::Fail;

/// What was answered of a graph.
#[derive(Drop)]
struct Told {
    empty: Result<UnitId, GraphFault>,
    lengths: (u32, u32, u32),
    sealed: Result<(u32, u32, u32), GraphFault>,
}

/// The span of the first frames of a unit.
fn first_frames(frames: u32) -> Span
    requires { 1 ≤ frames }
    ensures span { IsSpan result }
    ensures frames { result.last.0 + 1 - result.first.0 ≡ frames }
{
    Span {
        first: Pos(0),
        last: Pos(frames - 1),
    }
}

/// A filter that inverts the colours of these frames.
fn invert(span: Span) -> Attached
    requires { IsSpan span }
    ensures { IsAttached result }
{
    Attached {
        spec: FilterSpec::Invert,
        span,
    }
}

/// Such a filter alone.
fn inverts(alloc: Global, span: Span) -> Result<FilterList, AllocError>
    requires { IsSpan span }
    ensures { IfOk result (λ filters. All IsAttached filters) }
{
    let mut filters = ItemList::new(alloc);
    match filters.push(invert(span)) {
        Ok(()) => Ok(filters),
        Err(_) => Err(AllocError),
    }
}

/// The first frames of a unit, with their colours inverted.
fn clip_of(alloc: Global, unit: UnitId, frames: u32) -> Result<EntryList, AllocError>
    requires { 1 ≤ frames }
    ensures below { IfOk result (λ list. (count : ℕ) → unit.0 < count → AreEntriesBelow count list) }
    ensures frames { IfOk result (λ list. frames_in list ≡ frames) }
{
    let span = first_frames(frames);
    let filters = inverts(alloc, span)?;
    let mut list = ItemList::new(alloc);
    let clip = Entry::Clip {
        unit,
        span,
        filters,
    };
    match list.push(clip) {
        Ok(()) => Ok(list),
        Err(_) => Err(AllocError),
    }
}

/// A track of the first frames of a unit, or with no entry where none are asked for, with its colours inverted.
fn level_of(alloc: Global, unit: UnitId, frames: u32) -> Result<Level, AllocError>
    ensures { IfOk result (λ level. (count : ℕ) → unit.0 < count → All (λ draft. All (IsEntryBelow count) draft.entries) (drafts_of level)) }
{
    let mut level = Level::new(alloc)?;
    level.attach_track(FilterSpec::Invert, 0, None)?;
    if frames > 0 {
        let added = level.last().append_io(unit, frames, 0, frames - 1);
        if added.is_err() {
            return Err(AllocError);
        }
    }
    Ok(level)
}

/// Lists around a unit, so many, each of the one before it.
fn nest(graph: &mut Graph, alloc: Global, unit: UnitId, count: u32) -> Result<UnitId, AllocError>
    requires { unit.0 < length graph.old }
    ensures { IfOk result (λ id. id.0 < length graph.new) }
{
    let mut unit = unit;
    for _list in 0..count {
        unit = graph.add_list(clip_of(alloc, unit, 2)?)?;
    }
    Ok(unit)
}

/// The length of what is played, the buffers that it needs, and its operations.
fn numbers_of(graph: Graph, top: UnitId) -> Result<(u32, u32, u32), GraphFault>
    requires { top.0 < length graph }
{
    let sealed = graph.seal(top)?;
    Ok((sealed.length(), sealed.need(), sealed.ops()))
}

/// A tractor of a source of three frames in so many lists, of which the last gets a filter at the end.
fn tell(alloc: Global, lists: u32) -> Result<Told, AllocError> {
    let mut graph = Graph::new(alloc);
    let source = graph.add_source(SourceNo(0), SourceKind::Colour, 3)?;
    let empty = graph.add_tractor(level_of(alloc, source, 0)?);
    let list = nest(&mut graph, alloc, source, lists)?;
    let tractor = match graph.add_tractor(level_of(alloc, list, 1)?) {
        Ok(tractor) => tractor,
        Err(_) => return Err(AllocError),
    };
    graph.attach(list, invert(first_frames(1)))?;
    let lengths = (
        graph.length_of(source),
        graph.length_of(list),
        graph.length_of(tractor),
    );
    let sealed = numbers_of(graph, tractor);
    Ok(Told {
        empty,
        lengths,
        sealed,
    })
}

#[test]
fn seals_lists_in_a_tractor(rt: HostRuntime) -> Result<(), Fail> {
    let two = tell(rt.alloc(), 2)?;
    assert_eq!(rt; two.empty, Err(GraphFault::NoProducer));
    assert_eq!(rt; two.lengths, (3, 2, 1));
    assert_eq!(rt; two.sealed, Ok((1, 2, 5)));
    Ok(())
}

#[test]
fn seals_sixteen_deep_at_most(rt: HostRuntime) -> Result<(), Fail> {
    assert_eq!(rt; tell(rt.alloc(), 15)?.sealed, Ok((1, 2, 18)));
    assert_eq!(rt;
        tell(rt.alloc(), 16)?.sealed,
        Err(GraphFault::TooDeep { depth: 17 })
    );
    Ok(())
}

/// Begins a track without sound, of the first frames of a unit.
fn add_track(level: &mut Level, unit: UnitId, frames: u32) -> Result<(), AllocError>
    requires { 1 ≤ frames }
    ensures { OnOk result ((count : ℕ) → unit.0 < count → All (λ draft. All (IsEntryBelow count) draft.entries) (drafts_of level.old) → All (λ draft. All (IsEntryBelow count) draft.entries) (drafts_of level.new)) }
{
    let hide = Hide {
        video: false,
        audio: true,
    };
    if level.new_track(hide).is_err() {
        return Err(AllocError);
    }
    if level.last().append_io(unit, frames, 0, frames - 1).is_err() {
        return Err(AllocError);
    }
    Ok(())
}

/// Two tracks of a source of three frames, with a filter on a track and a merge of two.
fn tell_planted(
    alloc: Global,
    track: u32,
    a: u32,
    b: u32,
) -> Result<Result<(u32, u32, u32), GraphFault>, AllocError> {
    let mut graph = Graph::new(alloc);
    let source = graph.add_source(SourceNo(0), SourceKind::Colour, 3)?;
    let mut level = level_of(alloc, source, 2)?;
    add_track(&mut level, source, 3)?;
    level.plant_filter(track, FilterSpec::Invert, 0, None)?;
    level.plant_merge(a, b, MergeSpec::Mix, 1, Some(2))?;
    match graph.add_tractor(level) {
        Ok(tractor) => Ok(numbers_of(graph, tractor)),
        Err(fault) => Ok(Err(fault)),
    }
}

#[test]
fn plants_on_tracks_that_are_there(rt: HostRuntime) -> Result<(), Fail> {
    let off = |plant, no| {
        Err(GraphFault::BadTrack {
            plant,
            no,
            tracks: 2,
        })
    };
    let rows = [
        ((0, 0, 1), Ok((3, 3, 6))),
        ((2, 0, 0), off(0, 2)),
        ((1, 3, 4), off(1, 3)),
        ((1, 1, 2), off(1, 2)),
        ((1, 1, 1), Err(GraphFault::SameTrack { plant: 1, no: 1 })),
    ];
    for ((track, a, b), told) in rows {
        assert_eq!(rt;
            tell_planted(rt.alloc(), track, a, b)?,
            told,
            "{track} {a} {b}"
        );
    }
    Ok(())
}

/// A mix of a gap and the first frames of a unit, over those frames.
fn mix_of(
    graph: &mut Graph,
    alloc: Global,
    gap: u32,
    unit: UnitId,
    frames: u32,
) -> Result<UnitId, AllocError>
    requires there { unit.0 < length graph.old }
    requires some { (1 ≤ gap) × (1 ≤ frames) }
    requires short { (gap < 2 ^ 31) × (frames < 2 ^ 31) }
    ensures { IfOk result (λ id. IsMix graph.new id.0) }
{
    let b = Entry::Clip {
        unit,
        span: first_frames(frames),
        filters: FilterList::new(alloc),
    };
    graph.add_mix(MixParts {
        a: Entry::Gap { frames: gap },
        b,
        frames,
    })
}

/// A mix of a gap and a source of two frames, over those frames, with a merge.
fn tell_mix(alloc: Global, gap: u32) -> Result<Result<(u32, u32, u32), GraphFault>, AllocError>
    requires some { 1 ≤ gap }
    requires short { gap < 2 ^ 31 }
{
    let mut graph = Graph::new(alloc);
    let source = graph.add_source(SourceNo(0), SourceKind::Colour, 2)?;
    let mix = mix_of(&mut graph, alloc, gap, source, 2)?;
    graph.add_mixer(mix, MergeSpec::Mix)?;
    Ok(numbers_of(graph, mix))
}

#[test]
fn seals_a_mix(rt: HostRuntime) -> Result<(), Fail> {
    assert_eq!(rt; tell_mix(rt.alloc(), 2)?, Ok((2, 3, 4)));
    assert_eq!(rt; tell_mix(rt.alloc(), 3)?, Ok((3, 3, 4)));
    Ok(())
}

/// The first frames of a unit, with their colours inverted, and then a gap of three.
fn clip_and_gap(alloc: Global, unit: UnitId, frames: u32) -> Result<EntryList, AllocError>
    requires { 1 ≤ frames }
    ensures below { IfOk result (λ list. (count : ℕ) → unit.0 < count → AreEntriesBelow count list) }
    ensures frames { IfOk result (λ list. frames_in list ≡ frames + 3) }
{
    let mut list = clip_of(alloc, unit, frames)?;
    match list.push(Entry::Gap { frames: 3 }) {
        Ok(()) => Ok(list),
        Err(_) => Err(AllocError),
    }
}

/// What is found at a position of a clip of two frames and a gap of three.
fn find_in_list(alloc: Global, at: u32) -> Result<Option<(usize, u32)>, AllocError> {
    let mut graph = Graph::new(alloc);
    let source = graph.add_source(SourceNo(0), SourceKind::Colour, 2)?;
    let list = graph.add_list(clip_and_gap(alloc, source, 2)?)?;
    match graph.seal(list) {
        Ok(sealed) => Ok(sealed.find(list.0 as usize, 0, at)),
        Err(_) => Err(AllocError),
    }
}

#[test]
fn finds_entries(rt: HostRuntime) -> Result<(), Fail> {
    let rows = [
        (0, Some((0, 0))),
        (1, Some((0, 1))),
        (4, Some((1, 2))),
        (5, None),
    ];
    for (at, found) in rows {
        assert_eq!(rt; find_in_list(rt.alloc(), at)?, found, "{at}");
    }
    Ok(())
}

/// The output of one frame with two channels.
fn output_of(alloc: Global, pix: Pix, format: Format) -> Result<Output, AllocError> {
    Ok(Output {
        video: Text::new(alloc, "-")?,
        audio: None,
        pix,
        first: Pos(0),
        last: Pos(0),
        workers: 0,
        buffer: 25,
        slices: 1,
        cache: 4,
        channels: 2,
        format,
    })
}

#[test]
fn has_room_for_a_frame(rt: HostRuntime) -> Result<(), Fail> {
    let rate = Rate { num: 25, den: 1 };
    let profile = Profile {
        width: 720,
        height: 576,
        rate,
    };
    let short = output_of(rt.alloc(), Pix::Rgb, Format::S16)?;
    let long = output_of(rt.alloc(), Pix::Rgba, Format::S32)?;
    assert_eq!(rt; short.piece(&profile), 1_244_160 + 7_680);
    assert_eq!(rt; long.piece(&profile), 1_658_880 + 15_360);
    assert_eq!(rt; unit_of(&profile, 1), 1_658_880);
    assert_eq!(rt; (pairs_of(1), pairs_of(2), pairs_of(5)), (1, 1, 3));
    Ok(())
}
