//! The edits, row by row, each from the same list.

ghost use Rattle.mlt_tree.specs.Ranges.{IsAttached, IsEntry};

use super::*;
use Piece::{Clip, Gap};
use mlt_base::PlayFault::{BadClip, BadRange, BadSplit, TooFew, TooLong, TooMany};
use mlt_base::{Animation, PlayFault, Pos, Q16, Span, Steps, Try, UnitId};
use mlt_tree::{Attached, Entry, FilterList, FilterSpec, ItemList};
use std::alloc::{AllocError, Global};
use std::process::Abort;
use std::test::Fail;

/// An entry as the rows write it: the frames first to last of a unit, or a gap of so many.
#[derive(Clone, Copy, PartialEq, Eq)]
enum Piece {
    Clip(u32, u32, u32),
    Gap(u32),
}

/// A call, with its arguments. The entry that is put in is frame 0 of unit 2.
#[derive(Clone, Copy, Debug)]
enum Call {
    Append,
    AppendIo(u32, u32, u32),
    Blank(u16),
    Insert(usize),
    InsertBlank(usize, u16),
    InsertAt(u16),
    Remove(usize),
    RemoveRegion(u32, u32),
    MoveClip(usize, usize),
    SwapLast,
    ResizeClip(usize, u32, u32, u32),
    ReplaceWithBlank(usize),
    ConsolidateBlanks(bool),
    Attach(usize),
    Split(usize, i64),
    Join(usize, usize),
    Mix(usize, u32),
    RepeatClip(usize, u32),
    Clear,
}

/// The list that each row starts from: five frames of unit 0, a gap of two, three frames of unit 1.
fn start(alloc: Global) -> Result<Playlist, AllocError> {
    let mut list = Playlist::new(alloc);
    let first = list.append_io(UnitId(0), 5, 0, 4);
    let second = list.blank(1);
    let third = list.append_io(UnitId(1), 3, 0, 2);
    if first.is_err() || second.is_err() || third.is_err() {
        return Err(AllocError);
    }
    Ok(list)
}

/// Frame 0 of unit 2.
fn frame(alloc: Global) -> Entry
    ensures { IsEntry result }
{
    Entry::Clip {
        unit: UnitId(2),
        span: Span {
            first: Pos(0),
            last: Pos(0),
        },
        filters: FilterList::new(alloc),
    }
}

/// A filter without numbers.
fn mono() -> Attached
    ensures { IsAttached result }
{
    Attached {
        spec: FilterSpec::Mono,
        span: Span {
            first: Pos(0),
            last: Pos(2),
        },
    }
}

/// An entry as a list of one.
fn one(alloc: Global, entry: Entry) -> Result<Vec<Entry>, Try<PlayFault>> {
    let mut entries = Vec::new(alloc);
    entries.push(entry)?;
    Ok(entries)
}

/// Makes a call, and gives the entries that it hands out.
fn run(alloc: Global, list: &mut Playlist, call: Call) -> Result<Vec<Entry>, Try<PlayFault>> {
    match call {
        Call::Append => list.append(frame(alloc))?,
        Call::AppendIo(length, first, last) => list.append_io(UnitId(2), length, first, last)?,
        Call::Blank(last) => list.blank(u32::from(last))?,
        Call::Insert(at) => list.insert(at, frame(alloc))?,
        Call::InsertBlank(at, last) => list.insert_blank(at, u32::from(last))?,
        Call::InsertAt(at) => list.insert_at(u32::from(at), frame(alloc))?,
        Call::Remove(at) => {
            let entry = list.remove(at)?;
            return one(alloc, entry);
        }
        Call::RemoveRegion(at, n) => list.remove_region(at, n)?,
        Call::MoveClip(from, to) => list.move_clip(from, to)?,
        Call::SwapLast => list.swap_last()?,
        Call::ResizeClip(at, first, last, length) => list.resize_clip(at, first, last, length)?,
        Call::ReplaceWithBlank(at) => {
            let entry = list.replace_with_blank(at)?;
            return one(alloc, entry);
        }
        Call::ConsolidateBlanks(keep) => list.consolidate_blanks(keep)?,
        Call::Attach(at) => list.attach(at, mono())?,
        Call::Split(at, k) => list.split(at, k)?,
        Call::Join(at, n) => return Ok(list.join(at, n, UnitId(8))?.into_vec()),
        Call::Mix(at, n) => {
            let parts = list.mix(at, n.max(1), UnitId(7))?;
            let mut both = one(alloc, parts.a)?;
            both.push(parts.b)?;
            return Ok(both);
        }
        Call::RepeatClip(at, n) => list.repeat_clip(at, n.max(1))?,
        Call::Clear => list.clear(),
    }
    Ok(Vec::new(alloc))
}

/// How many filters an entry has.
fn filters_of(entry: Option<&Entry>) -> usize {
    match entry {
        Some(Entry::Clip { filters, .. }) => filters.count(),
        _ => 0,
    }
}

/// Whether an entry is as a row writes it; and whether all are.
fn is(entry: &Entry, piece: &Piece) -> bool {
    let found = match entry {
        Entry::Clip { unit, span, .. } => Clip(unit.0, span.first.0, span.last.0),
        Entry::Gap { frames } => Gap(*frames),
    };
    found == *piece
}

fn are(entries: &[Entry], pieces: &[Piece]) -> bool {
    entries.len() == pieces.len()
        && entries
            .iter()
            .zip(pieces)
            .all(|(entry, piece)| is(entry, piece))
}

const FIRST: Piece = Clip(0, 0, 4);

const SECOND: Piece = Gap(2);

const THIRD: Piece = Clip(1, 0, 2);

const NEW: Piece = Clip(2, 0, 0);

/// What each row starts from.
const P: [Piece; 3] = [FIRST, SECOND, THIRD];

/// The entries that a call hands out, or its refusal.
type Answer = Result<&'static [Piece], PlayFault>;

/// Calls, their answers, and the list that each leaves.
const ROWS: [(Call, Answer, &[Piece]); 37] = [
    (Call::Append, Ok(&[]), &[FIRST, SECOND, THIRD, NEW]),
    (
        Call::AppendIo(5, 1, 4),
        Ok(&[]),
        &[FIRST, SECOND, THIRD, Clip(2, 1, 4)],
    ),
    (
        Call::AppendIo(5, 4, 5),
        Err(BadRange {
            first: 4,
            last: 5,
            length: 5,
        }),
        &P,
    ),
    (Call::Blank(0), Ok(&[]), &[FIRST, SECOND, THIRD, Gap(1)]),
    (Call::Insert(3), Ok(&[]), &[FIRST, SECOND, THIRD, NEW]),
    (Call::Insert(4), Err(BadClip { index: 4, count: 3 }), &P),
    (
        Call::InsertBlank(1, 0),
        Ok(&[]),
        &[FIRST, Gap(1), SECOND, THIRD],
    ),
    (
        Call::InsertAt(12),
        Ok(&[]),
        &[FIRST, SECOND, THIRD, Gap(2), NEW],
    ),
    (
        Call::InsertAt(6),
        Ok(&[]),
        &[FIRST, Gap(1), NEW, Gap(1), THIRD],
    ),
    (Call::Remove(1), Ok(&[SECOND]), &[FIRST, THIRD]),
    (Call::RemoveRegion(3, 4), Ok(&[]), &[Clip(0, 0, 2), THIRD]),
    (
        Call::RemoveRegion(1, 3),
        Ok(&[]),
        &[Clip(0, 0, 0), Clip(0, 4, 4), SECOND, THIRD],
    ),
    (
        Call::RemoveRegion(8, 3),
        Err(BadRange {
            first: 8,
            last: 10,
            length: 10,
        }),
        &P,
    ),
    (
        Call::RemoveRegion(3, 0),
        Err(BadRange {
            first: 3,
            last: 3,
            length: 10,
        }),
        &P,
    ),
    (Call::MoveClip(0, 2), Ok(&[]), &[SECOND, THIRD, FIRST]),
    (Call::SwapLast, Ok(&[]), &[FIRST, THIRD, SECOND]),
    (
        Call::ResizeClip(0, 1, 3, 5),
        Ok(&[]),
        &[Clip(0, 1, 3), SECOND, THIRD],
    ),
    (
        Call::ResizeClip(0, 1, 5, 5),
        Err(BadRange {
            first: 1,
            last: 5,
            length: 5,
        }),
        &P,
    ),
    (
        Call::ResizeClip(1, 0, 2_147_483_639, 0),
        Err(TooLong {
            frames: 2_147_483_648,
        }),
        &P,
    ),
    (
        Call::ReplaceWithBlank(0),
        Ok(&[FIRST]),
        &[Gap(5), SECOND, THIRD],
    ),
    (Call::ConsolidateBlanks(true), Ok(&[]), &P),
    (Call::Attach(0), Ok(&[]), &P),
    (Call::Attach(1), Err(BadClip { index: 1, count: 3 }), &P),
    (
        Call::Split(0, 1),
        Ok(&[]),
        &[Clip(0, 0, 1), Clip(0, 2, 4), SECOND, THIRD],
    ),
    (
        Call::Split(0, -1),
        Ok(&[]),
        &[Clip(0, 0, 3), Clip(0, 4, 4), SECOND, THIRD],
    ),
    (Call::Split(1, 0), Ok(&[]), &[FIRST, Gap(1), Gap(1), THIRD]),
    (Call::Split(1, 1), Err(BadSplit { at: 1, frames: 2 }), &P),
    (Call::Split(0, -5), Err(BadSplit { at: -5, frames: 5 }), &P),
    (Call::Split(3, 0), Err(BadClip { index: 3, count: 3 }), &P),
    (
        Call::Join(1, 2),
        Ok(&[SECOND, THIRD]),
        &[FIRST, Clip(8, 0, 4)],
    ),
    (Call::Join(1, 3), Err(TooFew { asked: 3, there: 2 }), &P),
    (
        Call::Mix(0, 9),
        Ok(&[Clip(0, 3, 4), SECOND]),
        &[Clip(0, 0, 2), Clip(7, 0, 1), THIRD],
    ),
    (
        Call::Mix(1, 1),
        Ok(&[Gap(1), Clip(1, 0, 0)]),
        &[FIRST, Gap(1), Clip(7, 0, 0), Clip(1, 1, 2)],
    ),
    (Call::Mix(2, 1), Err(TooFew { asked: 2, there: 1 }), &P),
    (
        Call::RepeatClip(2, 2),
        Ok(&[]),
        &[FIRST, SECOND, THIRD, THIRD],
    ),
    (
        Call::RepeatClip(2, 100_000),
        Err(TooMany { limit: 100_000 }),
        &P,
    ),
    (Call::Clear, Ok(&[]), &[]),
];

/// Makes the call of a row on the list that each row starts from.
fn row(
    rt: &impl Abort,
    alloc: Global,
    call: Call,
    answer: Answer,
    left: &[Piece],
) -> Result<(), AllocError> {
    let mut list = start(alloc)?;
    match (run(alloc, &mut list, call), answer) {
        (Ok(entries), Ok(pieces)) => assert!(rt; are(&entries, pieces), "{call:?}"),
        (Err(fault), Err(wanted)) => assert_eq!(rt; fault, Try::Fault(wanted), "{call:?}"),
        _ => panic!(rt; "{call:?}"),
    }
    assert!(rt; are(list.as_slice(), left), "{call:?}");
    Ok(())
}

#[test]
fn each_row(rt: HostRuntime) -> Result<(), Fail> {
    for (call, answer, left) in ROWS {
        row(&rt, rt.alloc(), call, answer, left)?;
    }
    Ok(())
}

/// Positions to split at, the indexes or refusals, and the list that each leaves.
const SPLITS: [(u32, Result<usize, PlayFault>, &[Piece]); 4] = [
    (6, Ok(2), &[FIRST, Gap(1), Gap(1), THIRD]),
    (5, Ok(1), &P),
    (10, Ok(3), &P),
    (
        11,
        Err(BadRange {
            first: 11,
            last: 11,
            length: 10,
        }),
        &P,
    ),
];

#[test]
fn each_split_at(rt: HostRuntime) -> Result<(), Fail> {
    for (at, answer, left) in SPLITS {
        let mut list = start(rt.alloc())?;
        assert_eq!(rt; list.split_at(at), answer.map_err(Try::Fault));
        assert!(rt; are(list.as_slice(), left), "{at}");
    }
    Ok(())
}

#[test]
fn each_question(rt: HostRuntime) -> Result<(), Fail> {
    let list = start(rt.alloc())?;
    assert_eq!(rt; (list.count(), list.length()), (3, 10));
    assert_eq!(rt; list.clip_at(Pos(5)), Some((1, Pos(0))));
    assert_eq!(rt; list.clip_at(Pos(10)), None);
    assert!(rt; list.entry(3).is_none());
    assert!(rt; are(list.copy_range(1, 2)?.as_slice(), &[SECOND, THIRD]));
    let (entries, kept) = list.into_parts();
    assert!(rt; are(entries.as_slice(), &P));
    let made = starts_of(rt.alloc(), entries.as_slice())?;
    for at in [4, 5, 10] {
        let found = made.find(Pos(at), &mut Steps::new());
        assert_eq!(rt; found, kept.find(Pos(at), &mut Steps::new()), "{at}");
    }
    Ok(())
}

#[test]
fn one_after_another(rt: HostRuntime) -> Result<(), Fail> {
    let mut list = start(rt.alloc())?;
    assert!(rt; list.replace_with_blank(0).is_ok());
    assert_eq!(rt; list.consolidate_blanks(true), Ok(()));
    assert!(rt; are(list.as_slice(), &[Gap(7), THIRD]));

    // Each half of a clip has its filters.
    assert_eq!(rt; list.attach(1, mono()), Ok(()));
    assert_eq!(rt; list.split(1, 0), Ok(()));
    assert_eq!(rt;
        (filters_of(list.entry(1)), filters_of(list.entry(2))),
        (1, 1)
    );

    let count = list.count();
    assert_eq!(rt; count, 3);
    let out = list
        .splice(0, 2, ItemList::new(rt.alloc()))
        .map_err(|e| e.1)?;
    assert!(rt; are(out.as_slice(), &[Gap(7), Clip(1, 0, 0)]));
    assert!(rt; are(list.as_slice(), &[Clip(1, 1, 2)]));
    Ok(())
}

/// Whether the clip at an index has a brightness that is half of one at its frame 12.
fn fades(list: &Playlist, at: usize) -> bool {
    let Some(Entry::Clip { filters, .. }) = list.entry(at) else {
        return false;
    };
    match filters.item(0) {
        Some(
            Attached {
                spec: FilterSpec::Brightness { level },
                ..
            },
        ) => level.at(12) == Q16(32768),
        _ => false,
    }
}

#[test]
fn copies_keep_the_filters(rt: HostRuntime) -> Result<(), Fail> {
    let alloc = rt.alloc();
    let mut list = start(alloc)?;
    let Ok(level) = Animation::read(alloc, "0=0;24=1") else {
        return Err(Fail::new("not read"));
    };
    let filter = Attached {
        spec: FilterSpec::Brightness { level },
        span: Span {
            first: Pos(0),
            last: Pos(4),
        },
    };
    assert!(rt; list.attach(0, filter).is_ok());
    assert!(rt; list.split(0, 1).is_ok());
    assert!(rt; list.repeat_clip(1, 2).is_ok());
    assert!(rt; fades(&list, 0) && fades(&list, 1) && fades(&list, 2));
    Ok(())
}
