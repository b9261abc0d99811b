//! A block as its caller sees it.

ghost use Rattle.std.specs.Prelude.{◌≡◌, IfOk};

use crate::{Freed, RawBlock};
use std::alloc::{AllocError, Global};
use std::test::Fail;

/// What a block of 64 bytes told.
#[derive(Drop)]
struct Told {
    was_zero: bool,
    may_cross_threads: bool,
    written: (u8, u8),
    length: usize,
    freed: Freed,
}

/// Makes a block, writes its first byte and its last, and frees it.
fn fill_one(alloc: Global) -> Result<Told, AllocError>
    ensures { IfOk result (λ told. told.freed ≡ 1) }
{
    let mut block = RawBlock::new(alloc, 64)?;
    let was_zero = block.as_slice() == [0; 64].as_slice();
    block.as_mut_slice()[63] = 7;
    block.first_mut(1)[0] = 9;
    Ok(Told {
        was_zero,
        may_cross_threads: may_cross(&block),
        written: (block.as_slice()[0], block.as_slice()[63]),
        length: block.as_slice().len(),
        freed: Freed::none().and(block.free()),
    })
}

#[test]
fn a_new_block_is_zero_and_keeps_what_is_written(rt: HostRuntime) -> Result<(), Fail> {
    let told = fill_one(rt.alloc())?;
    assert!(rt; told.was_zero);
    assert!(rt; told.may_cross_threads);
    assert_eq!(rt; told.written, (9, 7));
    assert_eq!(rt; told.length, 64);
    Ok(())
}

/// Whether a value may be sent to a thread and shared with one: where this can be called, it may.
fn may_cross<T: Send + Sync>(_value: &T) -> bool {
    true
}
