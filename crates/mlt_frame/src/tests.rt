//! Frames and their stacks as a caller sees them.

ghost use Rattle.std.specs.Prelude.{◌≡◌};

use crate::{Frame, Op, OpStack, Ops};
use mlt_base::{Pos, SourceNo};
use mlt_pool::Pool;
use mlt_tree::{FilterStep, MergeStep};
use std::alloc::{AllocError, Global};
use std::test::Fail;

/// What a frame told.
#[derive(Drop)]
struct Told {
    may_cross_threads: bool,
    at: u32,
    lengths: (usize, usize, usize),
    loads: u32,
    sources: [Option<u32>; 3],
}

/// Whether a value may be sent to a thread and shared with one: where this can be called, it may.
fn may_cross<T: Send + Sync>(_value: &T) -> bool {
    true
}

/// A load of a source at position 5.
fn load(source: u32) -> Op {
    Op::Load {
        source: SourceNo(source),
        at: Pos(5),
    }
}

/// Pushes two loads that are merged, under which there is nothing.
fn push_two(stack: &mut OpStack) -> Result<(), AllocError> {
    let ops = [
        Op::Absent,
        load(7),
        Op::Filter {
            depth: 0,
            step: FilterStep::Invert,
        },
        load(3),
        Op::Merge {
            a: 1,
            b: 0,
            step: MergeStep::Matte,
        },
        Op::Keep { row: 1, count: 3 },
    ];
    stack.reserve(6)?;
    for op in ops {
        if let Err(refused) = stack.push(op) {
            return Err(refused.1);
        }
    }
    Ok(())
}

/// The number of a source.
fn number(source: Option<SourceNo>) -> Option<u32> {
    match source {
        Some(source) => Some(source.0),
        None => None,
    }
}

/// What a frame tells.
fn tell(frame: &Frame) -> Told {
    Told {
        may_cross_threads: may_cross(frame),
        at: frame.at().0,
        lengths: (
            frame.image().len(),
            frame.sound().len(),
            frame.out().bytes().len(),
        ),
        loads: frame.loads(),
        sources: [
            number(frame.load_at(0)),
            number(frame.load_at(1)),
            number(frame.load_at(2)),
        ],
    }
}

/// The frame of another's parts.
fn made_again(frame: Frame) -> Frame
    ensures { result ≡ frame }
{
    let (at, image, sound, out) = frame.parts();
    Frame::new(at, image, sound, out)
}

/// What a frame told, and how many operations and lent blocks there are once it is destroyed.
fn destroy_one(alloc: Global) -> Result<Option<(Told, (usize, usize, u64))>, AllocError> {
    let mut ops = Ops::new(alloc, 20)?;
    push_two(&mut ops.image)?;
    let mut pool = Pool::new(alloc);
    if pool.reserve(12, 1).is_err() {
        pool.close();
        return Err(AllocError);
    }
    let Some(lease) = pool.lend(100) else {
        pool.close();
        return Ok(None);
    };
    let frame = made_again(Frame::new(Pos(5), ops.image, ops.sound, lease));
    let told = tell(&frame);
    let Ops { image, sound } = frame.destroy(&mut pool);
    let after = (image.len(), sound.as_slice().len(), pool.lent());
    pool.close();
    Ok(Some((told, after)))
}

#[test]
fn a_frame_tells_its_parts(rt: HostRuntime) -> Result<(), Fail> {
    let told = destroy_one(rt.alloc())?;
    let Some((told, after)) = told else {
        return Err(Fail::new("no lease"));
    };
    assert!(rt; told.may_cross_threads);
    assert_eq!(rt; told.at, 5);
    assert_eq!(rt; told.lengths, (6, 0, 100));
    assert_eq!(rt; told.loads, 2);
    assert_eq!(rt; told.sources, [Some(7), Some(3), None]);
    assert_eq!(rt; after, (0, 0, 0));
    Ok(())
}

#[test]
fn what_was_pushed_first_comes_last(rt: HostRuntime) -> Result<(), Fail> {
    let mut stack = OpStack::new(rt.alloc());
    for source in 0..20 {
        if stack.push(load(source)).is_err() {
            return Err(Fail::new("refused"));
        }
    }
    stack.flip();
    let first = stack.pop();
    assert!(rt;
        matches!(
            first,
            Some(Op::Load {
                source: SourceNo(0),
                ..
            })
        )
    );
    assert_eq!(rt; stack.len(), 19);
    stack.push_reserved(Op::Absent);
    stack.clear();
    assert!(rt; stack.is_empty());
    assert!(rt; stack.pop().is_none());
    Ok(())
}
