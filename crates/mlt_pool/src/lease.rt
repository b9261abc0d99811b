//! A buffer that is lent, which contracts see as its bytes.

ghost use Rattle.std.specs.Prelude.{◌≡◌, ◌^◌, ◌≤◌, length, take};
ghost use Rattle.std.specs.Borrow.{sem};
ghost use Rattle.mlt_pool.specs.Class.{class_of};

use mlt_raw::RawBlock;
use std::marker::Model;

/// A buffer of exactly the length that was asked for, at most 2^28 bytes.
///
/// A lease can't be dropped: it is spent by [`Pool::home`](crate::Pool::home). It may go to another
/// thread, since all that it holds may.
pub struct Lease {
    block: RawBlock,
    len: usize,
    class: u8,
}

impl Model for Lease {
    ghost use Rattle.std.specs.Prelude.{ℕ, List, take};
    ghost use Rattle.mlt_pool.specs.Lease.{IsLease};

    ghost Value = { List ℕ };

    ghost view = { λ l. take l.len l.block };

    ghost invariant = { λ l. IsLease l.block l.len l.class };
}

impl Lease {
    ghost use Rattle.mlt_pool.specs.LeaseLends.{LendsBytes};

    /// A lease of the first `len` bytes of a block of their class.
    pub(crate) fn new(block: RawBlock, len: usize, class: u8) -> Lease
        requires class { class ≡ class_of len }
        requires within { (12 ≤ class) × (class ≤ 28) }
        requires block { length block ≡ 2 ^ class }
        requires holds { len ≤ 2 ^ class }
        ensures bytes { result ≡ take len block }
        ensures len { length result ≡ len }
    {
        Lease { block, len, class }
    }

    /// The bytes of the buffer.
    pub fn bytes(&self) -> &[u8]
        ensures { result.now ≡ self.now }
    {
        &self.block.as_slice()[..self.len]
    }

    /// The bytes of the buffer, to write to. The buffer ends with the bytes that are written.
    pub fn bytes_mut(&mut self) -> &mut [u8]
        ensures* writes_back { sem 𝓛 (LendsBytes self.entry result) }
        ensures value { result.now ≡ self.old }
    {
        let len = self.len;
        self.block.first_mut(len)
    }

    /// The class of the buffer's length, 12 to 28.
    pub fn class(&self) -> u8
        ensures class { result ≡ class_of (length self.now) }
        ensures within { (12 ≤ result) × (result ≤ 28) }
    {
        self.class
    }

    /// The block of the lease, which is as long as its class says.
    pub(crate) fn into_block(self) -> RawBlock
        ensures { length result ≡ 2 ^ class_of (length self) }
    {
        let Lease {
            block,
            len: _,
            class: _,
        } = self;
        block
    }
}
