//! The block, which contracts see as the list of its bytes.

ghost use Rattle.std.specs.Prelude.{◌≡◌, ◌^◌, ◌≤◌, Option, Some, None, replicate, length, take, IfOk};
ghost use Rattle.std.specs.Borrow.{sem};

use crate::cells::{self, Base, Cells, Deed, Freed, allocate};
use std::alloc::{AllocError, Global};
use std::marker::Model;

/// A block of 1 to 2^28 bytes, which never grows.
///
/// A block can't be dropped: it is spent by [`RawBlock::free`]. Its memory is std's, which aligns it
/// to 16 where 16 divides the size. A block may go to another thread, and threads may share it, since
/// that is so of all that it holds.
pub struct RawBlock {
    base: Base<u8>,
    size: usize,
    cells: Cells<u8>,
    deed: Deed<u8, Global>,
    alloc: Global,
}

impl Model for RawBlock {
    ghost use Rattle.std.specs.Prelude.{ℕ, List};

    ghost Value = { List ℕ };

    ghost use Rattle.mlt_raw.specs.Places.{somes};
    ghost use Rattle.mlt_raw.specs.Block.{IsWholeBlock};

    ghost view = { λ b. somes b.cells.slots };

    ghost invariant = { λ b. IsWholeBlock b.base b.size b.cells b.deed b.alloc };
}

impl RawBlock {
    ghost use Rattle.mlt_raw.specs.BlockLends.{LendsBytes, LendsFirst};

    /// A block of `size` bytes, all zero. It is refused only where there is no memory.
    pub fn new(alloc: Global, size: usize) -> Result<RawBlock, AllocError>
        requires at_least { 1 ≤ size }
        requires at_most { size ≤ 2 ^ 28 }
        ensures { IfOk result (λ b. b ≡ replicate size 0) }
    {
        let (base, mut cells, deed) = allocate(&alloc, size)?;
        write_zeros(&mut cells, base, size);
        Ok(RawBlock {
            base,
            size,
            cells,
            deed,
            alloc,
        })
    }

    /// The bytes of the block.
    pub fn as_slice(&self) -> &[u8]
        ensures { result.now ≡ self.now }
    {
        self.cells.slice(self.base, 0, self.size)
    }

    /// The bytes of the block, to write to. The block ends with the bytes that are written.
    pub fn as_mut_slice(&mut self) -> &mut [u8]
        ensures* writes_back { sem 𝓛 (LendsBytes self.entry result) }
        ensures value { result.now ≡ self.old }
    {
        let (base, size) = (self.base, self.size);
        self.cells.slice_mut(base, 0, size)
    }

    /// The first `len` bytes of the block, to write to. Those end with what is written, and the bytes
    /// after them stay as they are.
    pub fn first_mut(&mut self, len: usize) -> &mut [u8]
        requires { len ≤ length self.old }
        ensures* writes_back { sem 𝓛 (LendsFirst self.entry len result) }
        ensures value { result.now ≡ take len self.old }
    {
        let base = self.base;
        self.cells.slice_mut(base, 0, len)
    }

    /// Frees the memory of the block. It is never refused, and the receipt tells of one block.
    pub fn free(self) -> Freed
        ensures { result ≡ 1 }
    {
        let RawBlock {
            base,
            size,
            cells,
            deed,
            alloc,
        } = self;
        cells::free(&alloc, base, size, cells, deed)
    }
}

/// Writes 0 to each of the `size` places, all of which are empty.
fn write_zeros(cells: &mut Cells<u8>, base: Base<u8>, size: usize)
    requires at { base.ptr ≡ cells.old.at }
    requires empty { cells.old.slots ≡ replicate size None }
    ensures at { cells.new.at ≡ cells.old.at }
    ensures zeros { cells.new.slots ≡ replicate size (Some 0) }
{
    for index in 0..size {
        cells.write(base, index, 0);
    }
}
