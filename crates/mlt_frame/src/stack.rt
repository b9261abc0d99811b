//! Stacks of operations.

ghost use Rattle.std.specs.Prelude.{◌≡◌, ◌+◌, ◌^◌, ◌<◌, ◌≤◌, [], ◌∷◌, ◌++◌, length, reverse, nat_eq, IsOk, IfOk, IfErr, OnOk, OnErr, IfNone, IfSome};
ghost use Rattle.mlt_frame.specs.Stack.{room, emptied};

use crate::Op;
use smallvec::SmallVec;
use std::alloc::{AllocError, Global};
use std::marker::Model;

/// The most operations that a stack may have.
const MOST_OPS: usize = 4_294_967_295;

/// A stack of operations, of which there are fewer than 2^32.
///
/// Contracts see it as the list of its operations in the order in which they were pushed, and its
/// spare: how many more can be pushed without memory. No call makes less of length and spare together,
/// so room that was once reserved stays. Up to eight operations stand in the stack itself, and so in
/// its frame: short stacks want no memory, and lie beside what is read with them.
#[derive(Drop)]
pub struct OpStack {
    ops: SmallVec<Op, 8>,
}

impl Model for OpStack {
    ghost use Rattle.std.specs.Prelude.{◌≤◌, length};
    ghost use Rattle.mlt_frame.specs.Stack.{Stack, stack_in, most_ops};

    ghost Value = { Stack };

    ghost view = { λ s. stack_in s.ops.items s.ops.capacity };

    ghost invariant = { λ s. (length s.ops.items ≤ s.ops.capacity) × (length s.ops.items ≤ most_ops) };
}

impl OpStack {
    /// A stack of no operation. It takes no memory, and neither do its first eight operations.
    pub fn new(alloc: Global) -> OpStack
        ensures { result ≡ record { ops = []; spare = 8 } }
    {
        OpStack {
            ops: SmallVec::new(alloc),
        }
    }

    /// Adds an operation on top. Where memory is wanted, or the stack would have 2^32 operations, it hands
    /// the operation back, and the stack is as it was. It is not refused where there is spare.
    pub fn push(&mut self, op: Op) -> Result<(), (Op, AllocError)>
        ensures ok { OnOk result (self.new.ops ≡ self.old.ops ++ op ∷ []) }
        ensures reserved { 0 < self.old.spare → IsOk result × (self.new.spare + 1 ≡ self.old.spare) }
        ensures room { room self.old ≤ room self.new }
        ensures err { OnErr result (self.new ≡ self.old) }
        ensures back { IfErr result (λ refused. refused.0 ≡ op) }
    {
        match self.reserve(1) {
            Ok(()) => {
                self.push_reserved(op);
                Ok(())
            }
            Err(refused) => Err((op, refused)),
        }
    }

    /// Adds an operation on top, where there is spare. It takes no memory.
    pub fn push_reserved(&mut self, op: Op)
        requires { 0 < self.old.spare }
        ensures ops { self.new.ops ≡ self.old.ops ++ op ∷ [] }
        ensures spare { self.new.spare + 1 ≡ self.old.spare }
    {
        self.ops.push_reserved(op);
    }

    /// Takes the top operation off. `None` exactly where there is none.
    pub fn pop(&mut self) -> Option<Op>
        ensures none { IfNone result ((self.old.ops ≡ []) × (self.new ≡ self.old)) }
        ensures some { IfSome result (λ op. (self.old.ops ≡ self.new.ops ++ op ∷ []) × (self.new.spare ≡ self.old.spare + 1)) }
    {
        self.ops.pop()
    }

    /// How many operations there are.
    pub fn len(&self) -> usize
        ensures len { result ≡ length self.now.ops }
        ensures few { result < 2 ^ 32 }
    {
        self.ops.len()
    }

    /// Whether there is no operation.
    pub fn is_empty(&self) -> bool
        ensures { result ≡ nat_eq (length self.now.ops) 0 }
    {
        self.ops.is_empty()
    }

    /// Turns the order of the operations around, in place, so that [`OpStack::pop`] gives the one that was
    /// pushed first.
    pub fn flip(&mut self)
        ensures { self.new ≡ record { ops = reverse self.old.ops; spare = self.old.spare } }
    {
        self.ops.as_mut_slice().reverse();
    }

    /// Makes room for `count` more operations. Where memory is wanted, or they would be 2^32 with those
    /// that there are, the stack is as it was. It is not refused where there is so much spare.
    pub fn reserve(&mut self, count: usize) -> Result<(), AllocError>
        ensures ok { OnOk result ((self.new.ops ≡ self.old.ops) × (count ≤ self.new.spare)) }
        ensures room { room self.old ≤ room self.new }
        ensures reserved { count ≤ self.old.spare → IsOk result × (self.new ≡ self.old) }
        ensures err { OnErr result (self.new ≡ self.old) }
    {
        if count > MOST_OPS - self.ops.len() {
            return Err(AllocError);
        }
        self.ops.reserve(count)
    }

    /// Takes all operations off, and keeps their room.
    pub fn clear(&mut self)
        ensures { self.new ≡ emptied self.old }
    {
        self.ops.clear();
    }

    /// The operations in the order in which they were pushed.
    pub fn as_slice(&self) -> &[Op]
        ensures ops { result.now ≡ self.now.ops }
        ensures few { length result.now < 2 ^ 32 }
    {
        self.ops.as_slice()
    }
}

/// The stacks of a frame that isn't started yet: one for its picture and one for its sound.
#[derive(Drop)]
pub struct Ops {
    pub image: OpStack,
    pub sound: OpStack,
}

impl Ops {
    /// Two stacks of no operation, each with room for `count`. It is refused where memory is wanted, which
    /// up to eight never want.
    pub fn new(alloc: Global, count: u32) -> Result<Ops, AllocError>
        ensures empty { IfOk result (λ ops. (ops.image.ops ≡ []) × (ops.sound.ops ≡ [])) }
        ensures room { IfOk result (λ ops. (count ≤ ops.image.spare) × (count ≤ ops.sound.spare)) }
        ensures few { count ≤ 8 → IsOk result }
    {
        Ok(Ops {
            image: with_room(alloc, count)?,
            sound: with_room(alloc, count)?,
        })
    }
}

/// A stack of no operation, with room for `count`.
fn with_room(alloc: Global, count: u32) -> Result<OpStack, AllocError>
    ensures empty { IfOk result (λ stack. stack.ops ≡ []) }
    ensures room { IfOk result (λ stack. count ≤ stack.spare) }
    ensures few { count ≤ 8 → IsOk result }
{
    let mut stack = OpStack::new(alloc);
    stack.reserve(count as usize)?;
    Ok(stack)
}
