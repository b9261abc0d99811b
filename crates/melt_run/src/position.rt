//! One position of a show: its frame is started, and rendered.

ghost use Rattle.std.specs.Prelude.{ℕ, ◌≡◌, ◌≤◌, ◌<◌, [], All, IfSome, length};
ghost use Rattle.mlt_base.specs.ProfileView.{measures_of};
ghost use Rattle.mlt_frame.specs.Loads.{load, map, loads as loads_of, maps as maps_of};
ghost use Rattle.mlt_graph.specs.Piece.{piece_of};
ghost use Rattle.mlt_graph.specs.Sealed.{tree};
ghost use Rattle.mlt_graph.specs.Show.{meant};
ghost use Rattle.mlt_tree.specs.Needs.{needs};
ghost use Rattle.mlt_tree.specs.Show.{video_of, AreFitted};
ghost use Rattle.mlt_tree.specs.Tree.{len};
ghost use Rattle.melt_run.specs.Ready.{IsRackOf, AreStacksOf, IsPlayable};

use mlt_base::{Pos, Profile, SourceNo};
use mlt_eval::{Fitted, Rack, Rendered, render};
use mlt_frame::{Op, Ops};
use mlt_graph::Show;
use mlt_pool::Lease;
use mlt_slice::Alone;
use mlt_source::SourceTable;
use mlt_start::start;
use mlt_tree::MergeStep;
use std::alloc::Global;

/// The source whose picture an operation takes: one that it loads, or the map of a merge.
fn source_of(op: &Op) -> Option<SourceNo>
    ensures { (count : ℕ) → All (λ source. source < count) (load op.now) → All (λ source. source < count) (map op.now) → IfSome result (λ no. no.0 < count) }
{
    match op {
        Op::Load { source, at: _ } => Some(*source),
        Op::Merge { step, .. } => match step {
            MergeStep::Luma { map, .. } => *map,
            MergeStep::Composite { .. }
            | MergeStep::Matte
            | MergeStep::Mix { .. }
            | MergeStep::Sum => None,
        },
        Op::Absent | Op::Filter { .. } | Op::Keep { .. } => None,
    }
}

/// Whether operations take more pictures that are not kept than there are places left. It decides only how often
/// a picture is fitted.
fn is_short(ops: &[Op], fitted: &Fitted) -> bool {
    let mut spare = fitted.spare();
    for op in ops {
        if let Some(source) = source_of(op) {
            if fitted.find(source).is_none() {
                if spare == 0 {
                    return true;
                }
                spare -= 1;
            }
        }
    }
    false
}

/// Fits the picture of a source and keeps it, unless it is kept, or there is no place or no memory for it.
fn keep_one(
    alloc: Global,
    table: &SourceTable,
    profile: &Profile,
    fitted: &mut Fitted,
    no: SourceNo,
)
    requires there { no.0 < length table.now }
    requires fitted { AreFitted (measures_of profile.now) table.now fitted.old.fits }
    ensures { AreFitted (measures_of profile.now) table.now fitted.new.fits }
{
    if fitted.find(no).is_some() || fitted.spare() == 0 {
        return;
    }
    if let Ok(picture) = Fitted::make(alloc, table, no, profile) {
        let _ = fitted.add(no, picture);
    }
}

/// Fits the pictures that operations load, and those of their maps, and keeps them, so that a picture isn't fitted
/// anew for each frame. Where they don't find room beside those that are kept, these go first.
fn keep(alloc: Global, table: &SourceTable, profile: &Profile, fitted: &mut Fitted, ops: &[Op])
    requires there { All (λ source. source < length table.now) (loads_of ops.now) }
    requires maps { All (λ source. source < length table.now) (maps_of ops.now) }
    requires fitted { AreFitted (measures_of profile.now) table.now fitted.old.fits }
    ensures { AreFitted (measures_of profile.now) table.now fitted.new.fits }
{
    if is_short(ops, fitted) {
        fitted.clear();
    }
    for op in ops {
        if let Some(source) = source_of(op) {
            keep_one(alloc, table, profile, fitted, source);
        }
    }
}

/// Starts the frame of a position and renders it into a buffer: the bytes of its picture are those that the
/// definitions give the position, and it loads the sources that they say.
///
/// The position is below the length of the show, the table fits the show, which has no sound, the buffer has room for
/// a frame, and the rack and the stacks are those of the show. The rack, the buffer and the stacks come back as they
/// were handed in, the stacks empty. It takes memory only for pictures that are fitted and kept.
pub fn render_position(
    alloc: Global,
    show: &Show,
    table: &SourceTable,
    at: Pos,
    buffer: Lease,
    rack: &mut Rack,
    fitted: &mut Fitted,
    ops: Ops,
) -> Rendered
    requires playable { IsPlayable show.now table.now }
    requires at { at.0 < len (tree show.now.sealed) }
    requires buffer { piece_of show.now.output show.now.profile ≤ length buffer }
    requires rack { IsRackOf show.now rack.old }
    requires fitted { AreFitted (measures_of show.now.profile) table.now fitted.old.fits }
    requires stacks { AreStacksOf show.now ops }
    ensures video { result.video ≡ video_of (meant show.now table.now) at.0 }
    ensures sound { result.sound ≡ [] }
    ensures loads { result.loads ≡ length (needs (tree show.now.sealed) at.0) }
    ensures at { result.at ≡ at }
    ensures lease { length result.out ≡ length buffer }
    ensures stacks { AreStacksOf show.now result.ops }
    ensures rack { IsRackOf show.now rack.new }
    ensures fitted { AreFitted (measures_of show.now.profile) table.now fitted.new.fits }
{
    // so each position of it is below 2^31
    let _ = show.sealed.length();
    let frame = start(&show.sealed, at, buffer, ops);
    keep(
        alloc,
        table,
        &show.profile,
        fitted,
        frame.image().as_slice(),
    );
    render(
        frame,
        table,
        fitted,
        rack,
        &Alone,
        &show.profile,
        &show.output,
    )
}
