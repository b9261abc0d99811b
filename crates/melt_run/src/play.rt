//! Plays a show on the calling thread, frame after frame.

ghost use Rattle.std.specs.Prelude.{◌≡◌, ◌≤◌, ◌+◌, ◌^◌, ◌<◌, OnOk, OnErr, length};
ghost use Rattle.mlt_base.specs.declared.port.Port.TheVariants.{Video};
ghost use Rattle.mlt_base.specs.ProfileView.{measures_of};
ghost use Rattle.mlt_host.specs.Host.{Appends, AppendsFront, Counts, OnlyPort};
ghost use Rattle.mlt_pool.specs.Class.{class_of};
ghost use Rattle.mlt_pool.specs.Counts.{home_of, all_lent};
ghost use Rattle.mlt_graph.specs.Piece.{piece_of};
ghost use Rattle.mlt_graph.specs.Sealed.{tree};
ghost use Rattle.mlt_graph.specs.Show.{meant};
ghost use Rattle.mlt_tree.specs.Show.{played, video_of, AreFitted};
ghost use Rattle.mlt_tree.specs.Needs.{needs};
ghost use Rattle.mlt_tree.specs.Sources.{Fits};
ghost use Rattle.mlt_tree.specs.Tree.{len};
ghost use Rattle.mlt_tree.specs.Unbuilt.{IsPlayed};
ghost use Rattle.melt_run.specs.Lending.{LendsAlike};
ghost use Rattle.melt_run.specs.Play.{Plays, KeepsElse, DestroysNothing};
ghost use Rattle.melt_run.specs.Ready.{IsRackOf, AreStacksOf, IsPlayable};

use crate::position::render_position;
use crate::status::{Status, Tally};
use mlt_base::{Port, Pos};
use mlt_eval::{Fitted, Rack};
use mlt_frame::Ops;
use mlt_graph::{Show, pairs_of, unit_of};
use mlt_host::{Failed, Host};
use mlt_pool::{Pool, class};
use mlt_source::SourceTable;
use std::alloc::Global;

/// The accounts of a run whose frames were all appended, made of so many pictures.
fn all(frames: u32, loads: u64) -> Tally
    ensures { result ≡ record { frames = frames; loads = loads; handed = frames; taken = frames; destroyed = 0 } }
{
    let frames = u64::from(frames);
    Tally {
        frames,
        loads,
        handed: frames,
        taken: frames,
        destroyed: 0,
    }
}

/// The accounts of a run that failed to append the frame after these, which were made of so many pictures.
fn stopped(frames: u32, loads: u64) -> Tally
    ensures { result ≡ record { frames = frames; loads = loads; handed = frames + 1; taken = frames + 1; destroyed = 0 } }
{
    let frames = u64::from(frames);
    Tally {
        frames,
        loads,
        handed: frames + 1,
        taken: frames + 1,
        destroyed: 0,
    }
}

/// The length of the buffer of a frame.
fn piece(show: &Show) -> usize
    ensures value { result ≡ piece_of show.now.output show.now.profile }
    ensures small { result ≤ 2 ^ 28 }
{
    show.output.piece(&show.profile) as usize
}

/// Starts and renders a position into a buffer that the pool lends, appends its picture, and takes the buffer
/// home, whatever the host answers. It answers that, how many pictures the position was made of, and the stacks
/// that it was handed, emptied.
fn play_frame<H: Host>(
    alloc: Global,
    show: &Show,
    table: &SourceTable,
    at: u32,
    host: &mut H,
    pool: &mut Pool,
    rack: &mut Rack,
    fitted: &mut Fitted,
    ops: Ops,
) -> (Result<(), Failed>, u32, Ops)
    requires playable { IsPlayable show.now table.now }
    requires at { at < len (tree show.now.sealed) }
    requires block { 0 < home_of pool.old (class_of (piece_of show.now.output show.now.profile)) }
    requires rack { IsRackOf show.now rack.old }
    requires fitted { AreFitted (measures_of show.now.profile) table.now fitted.old.fits }
    requires stacks { AreStacksOf show.now ops }
    ensures ok { OnOk result.0 (Appends Video (H.state host.old) (H.state host.new) (video_of (meant show.now table.now) at)) }
    ensures failed { OnErr result.0 (AppendsFront Video (H.state host.old) (H.state host.new) (video_of (meant show.now table.now) at)) }
    ensures loads { result.1 ≡ length (needs (tree show.now.sealed) at) }
    ensures few { result.1 < 2 ^ 32 }
    ensures cause { Counts ((H.state host.old).faults Video) ((H.state host.new).faults Video) result.0 }
    ensures no_fault { OnOk result.0 ((H.state host.new).faults Video ≡ (H.state host.old).faults Video) }
    ensures creates { (H.state host.new).creates Video ≡ (H.state host.old).creates Video }
    ensures rest { OnlyPort Video (H.state host.old) (H.state host.new) }
    ensures home { home_of pool.new (class_of (piece_of show.now.output show.now.profile)) ≡ home_of pool.old (class_of (piece_of show.now.output show.now.profile)) }
    ensures lent { LendsAlike pool.old pool.new }
    ensures rack { IsRackOf show.now rack.new }
    ensures fitted { AreFitted (measures_of show.now.profile) table.now fitted.new.fits }
    ensures stacks { AreStacksOf show.now result.2 }
{
    let Some(buffer) = pool.lend(piece(show)) else {
        unreachable!()
    };
    let rendered = render_position(alloc, show, table, Pos(at), buffer, rack, fitted, ops);
    let answer = host.append(Port::Video, rendered.video());
    let loads = rendered.loads();
    let (buffer, ops) = rendered.into_parts();
    pool.home(buffer);
    (answer, loads, ops)
}

/// Creates Video and plays each position, with a pool that has a block for a frame at home, a rack, and stacks
/// with room for all operations.
fn play_frames<H: Host>(
    alloc: Global,
    show: &Show,
    table: &SourceTable,
    host: &mut H,
    pool: &mut Pool,
    rack: &mut Rack,
    fitted: &mut Fitted,
    ops: Ops,
) -> Status
    requires playable { IsPlayable show.now table.now }
    requires block { 0 < home_of pool.old (class_of (piece_of show.now.output show.now.profile)) }
    requires rack { IsRackOf show.now rack.old }
    requires fitted { AreFitted (measures_of show.now.profile) table.now fitted.old.fits }
    requires stacks { AreStacksOf show.now ops }
    ensures plays { Plays (played (meant show.now table.now)) result (H.state host.old) (H.state host.new) }
    ensures keeps { KeepsElse (played (meant show.now table.now)) result (H.state host.old) (H.state host.new) }
    ensures alone { DestroysNothing result }
    ensures lent { LendsAlike pool.old pool.new }
    ensures rack { IsRackOf show.now rack.new }
{
    let Ok(()) = host.create(Port::Video, show.output.video.as_str()) else {
        return Status::SinkFault(Port::Video, Tally::nothing());
    };
    let first = show.output.first.0;
    let frames = show.output.last.0 - first + 1;
    let mut stacks = ops;
    let mut loads = 0;
    for done in 0..frames {
        let at = first + done;
        let (answer, more, emptied) = play_frame(
            alloc, show, table, at, host, pool, rack, fitted, stacks,
        );
        stacks = emptied;
        let Ok(()) = answer else {
            return Status::SinkFault(Port::Video, stopped(done, loads));
        };
        loads += u64::from(more);
    }
    Status::Done(all(frames, loads))
}

/// Plays the show on a rack: first a block for a frame is added to the pool, and the stacks and the places for
/// fitted pictures are made.
fn play_on<H: Host>(
    alloc: Global,
    show: &Show,
    table: &SourceTable,
    host: &mut H,
    pool: &mut Pool,
    rack: &mut Rack,
) -> Status
    requires playable { IsPlayable show.now table.now }
    requires rack { IsRackOf show.now rack.old }
    ensures plays { Plays (played (meant show.now table.now)) result (H.state host.old) (H.state host.new) }
    ensures keeps { KeepsElse (played (meant show.now table.now)) result (H.state host.old) (H.state host.new) }
    ensures alone { DestroysNothing result }
    ensures lent { LendsAlike pool.old pool.new }
    ensures rack { IsRackOf show.now rack.new }
{
    let Ok(()) = pool.reserve(class::of_length(piece(show)), 1) else {
        return Status::Memory;
    };
    let Ok(stacks) = Ops::new(alloc, show.sealed.ops()) else {
        return Status::Memory;
    };
    let Ok(mut fitted) = Fitted::new(alloc, show.output.cache) else {
        return Status::Memory;
    };
    play_frames(alloc, show, table, host, pool, rack, &mut fitted, stacks)
}

/// Plays the show with a pool: first the blocks of a rack are added to it, and lent until the end.
fn play_in<H: Host>(
    alloc: Global,
    show: &Show,
    table: &SourceTable,
    host: &mut H,
    pool: &mut Pool,
) -> Status
    requires { IsPlayable show.now table.now }
    ensures plays { Plays (played (meant show.now table.now)) result (H.state host.old) (H.state host.new) }
    ensures keeps { KeepsElse (played (meant show.now table.now)) result (H.state host.old) (H.state host.new) }
    ensures alone { DestroysNothing result }
    ensures lent { all_lent pool.new ≡ all_lent pool.old }
{
    let size = unit_of(&show.profile, pairs_of(show.output.channels)) as usize;
    let need = show.sealed.need();
    let Ok(()) = pool.reserve(class::of_length(size), need) else {
        return Status::Memory;
    };
    let Ok(made) = Rack::new(alloc, pool, need, size) else {
        return Status::Memory;
    };
    let Some(mut rack) = made else { unreachable!() };
    let status = play_on(alloc, show, table, host, pool, &mut rack);
    rack.end(pool);
    status
}

/// Plays the show with a pool that is made for it and closed at the end.
fn play_all<H: Host>(alloc: Global, show: &Show, table: &SourceTable, host: &mut H) -> Status
    requires { IsPlayable show.now table.now }
    ensures plays { Plays (played (meant show.now table.now)) result (H.state host.old) (H.state host.new) }
    ensures keeps { KeepsElse (played (meant show.now table.now)) result (H.state host.old) (H.state host.new) }
    ensures alone { DestroysNothing result }
{
    let mut pool = Pool::new(alloc);
    let status = play_in(alloc, show, table, host, &mut pool);
    pool.close();
    status
}

/// Plays the show: creates Video, and appends the picture of each position in order.
///
/// It answers `Done` where every call of the host was Ok, `SinkFault` at the first that was not, and
/// `Memory` with nothing created. It waits for nobody. The block of a frame's buffer, the blocks that a frame
/// is worked out in, and the stacks of its operations are taken before the output is created, and each frame
/// uses them again. As many fitted pictures are kept as the output's `cache` says; these are made as frames
/// come to them, and where memory is wanting for one, it is fitted anew for each frame.
///
/// It destroys no frame. The table fits what is played. Until it is built, that has no sound.
pub fn play_serial<H: Host>(alloc: Global, show: Show, table: SourceTable, host: &mut H) -> Status
    requires fits { Fits table (tree show.sealed) }
    requires played { IsPlayed (meant show table) }
    ensures plays { Plays (played (meant show table)) result (H.state host.old) (H.state host.new) }
    ensures keeps { KeepsElse (played (meant show table)) result (H.state host.old) (H.state host.new) }
    ensures alone { DestroysNothing result }
{
    play_all(alloc, &show, &table, host)
}
