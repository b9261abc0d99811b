//! Starting a frame.

ghost use Rattle.std.specs.Prelude.{◌≡◌, ◌≤◌, ◌<◌, []};
ghost use Rattle.mlt_frame.specs.Stack.{room};
ghost use Rattle.mlt_frame.specs.Started.{IsStarted};
ghost use Rattle.mlt_tree.specs.Sizes.{ops as ops_of};
ghost use Rattle.mlt_tree.specs.Tree.{len};
ghost use Rattle.mlt_graph.specs.Sealed.{tree};
ghost use Rattle.mlt_start.specs.Asked.{medium_of};
ghost use Rattle.mlt_start.specs.Code.{code, or_absent};
ghost use Rattle.mlt_start.specs.Pushed.{IsAbove};

use crate::asked::Asked;
use crate::walk::push_unit;
use mlt_base::Pos;
use mlt_frame::{Frame, Op, OpStack, Ops};
use mlt_graph::Sealed;
use mlt_pool::Lease;

/// Pushes what a position of what is played has, or that it has nothing.
fn push_all(sealed: &Sealed, asked: Asked, at: u32, stack: &mut OpStack)
    requires some { 1 ≤ ops_of (tree sealed.now) }
    requires room { ops_of (tree sealed.now) ≤ stack.old.spare }
    ensures { IsAbove (or_absent (code (medium_of asked) (tree sealed.now) at)) stack.old stack.new }
{
    if !push_unit(sealed, asked, sealed.top().0 as usize, at, stack) {
        stack.push_reserved(Op::Absent);
    }
}

/// Starts the frame of a position: the operations that make its picture and its sound, and the lease that its
/// bytes go to. It takes no memory and can't be refused.
///
/// Only what shows is pushed: no track that another one covers or that goes into none that shows, no hidden
/// track, and no filter or merge outside its span. The position is below the length of what is played; each
/// stack is empty, with spare for [`Sealed::ops`] at least. What holds of the frame is `IsStarted` in `mlt_frame`'s
/// `specs/Started`; the stacks keep their room.
pub fn start(sealed: &Sealed, at: Pos, out: Lease, ops: Ops) -> Frame
    requires at { at.0 < len (tree sealed.now) }
    requires empty { (ops.image.ops ≡ []) × (ops.sound.ops ≡ []) }
    requires spare { (ops_of (tree sealed.now) ≤ ops.image.spare) × (ops_of (tree sealed.now) ≤ ops.sound.spare) }
    ensures at { result.at ≡ at }
    ensures out { result.out ≡ out }
    ensures started { IsStarted (tree sealed.now) result }
    ensures room { (room ops.image ≤ room result.image) × (room ops.sound ≤ room result.sound) }
{
    let Ops {
        mut image,
        mut sound,
    } = ops;
    // tells that all filters of what is played are in their ranges
    let _ = sealed.units();
    push_all(sealed, Asked::Pictures, at.0, &mut image);
    push_all(sealed, Asked::Sounds, at.0, &mut sound);
    Frame::new(at, image, sound, out)
}
