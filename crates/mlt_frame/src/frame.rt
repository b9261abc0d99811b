//! Frames that are started and not yet rendered.

ghost use Rattle.std.specs.Prelude.{◌≡◌, ◌+◌, ◌^◌, ◌<◌, length, slice_get, option_map};
ghost use Rattle.mlt_frame.specs.Loads.{loads};
ghost use Rattle.mlt_frame.specs.Stack.{emptied};
ghost use Rattle.mlt_pool.specs.Class.{class_of};
ghost use Rattle.mlt_pool.specs.Counts.{lent_of, brought, IsOneLent};

use crate::{Op, OpStack, Ops};
use mlt_base::{Pos, SourceNo};
use mlt_pool::{Lease, Pool};
use std::marker::Model;

/// A frame that is started and not yet rendered, seen as its position, its two stacks and its lease.
///
/// A frame can't be dropped, since its lease can't: it is spent by [`Frame::parts`] or [`Frame::destroy`].
pub struct Frame {
    at: Pos,
    image: OpStack,
    sound: OpStack,
    out: Lease,
}

impl Model for Frame {
    ghost use Rattle.mlt_frame.specs.Frame.{FrameParts};

    ghost Value = { FrameParts };

    ghost view = { λ f. record { at = f.at; image = f.image; sound = f.sound; out = f.out } };
}

impl Frame {
    /// The frame of a position, with the operations that make its picture and its sound, and the lease
    /// that its bytes go to.
    pub fn new(at: Pos, image: OpStack, sound: OpStack, out: Lease) -> Frame
        ensures { result ≡ record { at = at; image = image; sound = sound; out = out } }
    {
        Frame {
            at,
            image,
            sound,
            out,
        }
    }

    /// The position.
    pub fn at(&self) -> Pos
        ensures { result ≡ self.now.at }
    {
        self.at
    }

    /// The operations that make the picture.
    pub fn image(&self) -> &OpStack
        ensures { result.now ≡ self.now.image }
    {
        &self.image
    }

    /// The operations that make the sound.
    pub fn sound(&self) -> &OpStack
        ensures { result.now ≡ self.now.sound }
    {
        &self.sound
    }

    /// The lease that the bytes go to.
    pub fn out(&self) -> &Lease
        ensures { result.now ≡ self.now.out }
    {
        &self.out
    }

    /// How many loads the operations of the picture have.
    pub fn loads(&self) -> u32
        ensures { result ≡ length (loads self.now.image.ops) }
    {
        count_loads(self.image.as_slice())
    }

    /// The source of the load of that index, 0 for the one that was pushed first, among the operations of
    /// the picture. `None` exactly where the index isn't below [`Frame::loads`].
    pub fn load_at(&self, index: u32) -> Option<SourceNo>
        ensures { option_map (λ source. source.0) result ≡ slice_get (loads self.now.image.ops) index }
    {
        find_load(self.image.as_slice(), index)
    }

    /// The position, the operations of the picture and of the sound, and the lease.
    pub fn parts(self) -> (Pos, OpStack, OpStack, Lease)
        ensures { result ≡ (self.at, self.image, self.sound, self.out) }
    {
        let Frame {
            at,
            image,
            sound,
            out,
        } = self;
        (at, image, sound, out)
    }

    /// Ends a frame that isn't rendered: its lease goes home, and its stacks, emptied, come back with
    /// their room. It takes no memory.
    pub fn destroy(self, pool: &mut Pool) -> Ops
        requires { 0 < lent_of pool.old (class_of (length self.out)) }
        ensures image { result.image ≡ emptied self.image }
        ensures sound { result.sound ≡ emptied self.sound }
        ensures pool { pool.new ≡ brought (class_of (length self.out)) 1 pool.old }
        ensures counts { IsOneLent (class_of (length self.out)) pool.new pool.old }
    {
        let Frame {
            at: _,
            mut image,
            mut sound,
            out,
        } = self;
        pool.home(out);
        image.clear();
        sound.clear();
        Ops { image, sound }
    }
}

/// How many operations are loads.
fn count_loads(ops: &[Op]) -> u32
    requires { length ops.now < 2 ^ 32 }
    ensures { result ≡ length (loads ops.now) }
{
    let mut count = 0;
    for op in ops {
        if let Op::Load { .. } = op {
            count += 1;
        }
    }
    count
}

/// The source of the load of that index.
fn find_load(ops: &[Op], index: u32) -> Option<SourceNo>
    ensures { option_map (λ source. source.0) result ≡ slice_get (loads ops.now) index }
{
    let mut left = index;
    for op in ops {
        if let Op::Load { source, at: _ } = op {
            if left == 0 {
                return Some(*source);
            }
            left -= 1;
        }
    }
    None
}
