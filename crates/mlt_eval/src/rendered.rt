//! Frames that are rendered.

ghost use Rattle.std.specs.Prelude.{◌≡◌, ◌≤◌, [], length, take};

use mlt_base::Pos;
use mlt_frame::Ops;
use mlt_pool::Lease;
use std::marker::Model;

/// A frame that is rendered, seen as its position, how many sources its picture loaded, the bytes of its
/// picture and of its sound, its stacks, which are empty, and the bytes of its lease.
///
/// It can't be dropped, since its lease can't: it is spent by [`Rendered::into_parts`]. The picture
/// stands first in the lease, and its sound behind it. No frame that is rendered has sound yet.
pub struct Rendered {
    at: Pos,
    loads: u32,
    video: usize,
    sound: usize,
    ops: Ops,
    out: Lease,
}

impl Model for Rendered {
    ghost use Rattle.std.specs.Prelude.{◌+◌, ◌≤◌, length, take, drop};
    ghost use Rattle.mlt_eval.specs.Rendered.{RenderedParts};

    ghost Value = { RenderedParts };

    ghost view = { λ r. record { at = r.at; loads = r.loads; video = take r.video r.out; sound = take r.sound (drop r.video r.out); ops = r.ops; out = r.out } };

    ghost invariant = { λ r. r.video + r.sound ≤ length r.out };
}

impl Rendered {
    /// The frame whose picture is the first `video` bytes of the lease, without sound.
    pub(crate) fn silent(at: Pos, loads: u32, video: usize, ops: Ops, out: Lease) -> Rendered
        requires { video ≤ length out }
        ensures { result ≡ record { at = at; loads = loads; video = take video out; sound = []; ops = ops; out = out } }
    {
        Rendered {
            at,
            loads,
            video,
            sound: 0,
            ops,
            out,
        }
    }

    /// The position.
    pub fn at(&self) -> Pos
        ensures { result ≡ self.now.at }
    {
        self.at
    }

    /// How many sources the picture was made of.
    pub fn loads(&self) -> u32
        ensures { result ≡ self.now.loads }
    {
        self.loads
    }

    /// The bytes of the picture, as they are written.
    pub fn video(&self) -> &[u8]
        ensures { result.now ≡ self.now.video }
    {
        &self.out.bytes()[..self.video]
    }

    /// The bytes of the sound, as they are written.
    pub fn sound(&self) -> &[u8]
        ensures { result.now ≡ self.now.sound }
    {
        &self.out.bytes()[self.video..self.video + self.sound]
    }

    /// The lease, and the stacks as they are.
    pub fn into_parts(self) -> (Lease, Ops)
        ensures { result ≡ (self.out, self.ops) }
    {
        let Rendered {
            at: _,
            loads: _,
            video: _,
            sound: _,
            ops,
            out,
        } = self;
        (out, ops)
    }
}
