//! The blocks of one class.

ghost use Rattle.std.specs.Prelude.{◌≡◌, ◌+◌, ◌-◌, ◌^◌, ◌<◌, ◌≤◌, length, take, All, IfSome, IfNone, IfErr, OnOk, OnErr, vec_len, vec_capacity};
ghost use Rattle.mlt_pool.specs.Tally.{Tally};

use crate::class::block_size;
use mlt_raw::{Freed, RawBlock};
use std::alloc::{AllocError, Global};
use std::marker::Model;

/// The blocks of one class that are home, and how many were reserved: the others are lent.
///
/// A shelf can't be dropped: it is spent by [`Shelf::end`].
pub(crate) struct Shelf {
    class: u8,
    home: Vec<RawBlock>,
    reserved: u32,
}

impl Model for Shelf {
    ghost use Rattle.std.specs.Prelude.{◌-◌, vec_len, vec_capacity};
    ghost use Rattle.mlt_pool.specs.Tally.{Tally, IsShelf};

    ghost Value = { Tally };

    ghost view = { λ s. record { class = s.class; home = vec_len s.home; lent = s.reserved - vec_len s.home } };

    ghost invariant = { λ s. IsShelf s.class s.home.items (vec_len s.home) (vec_capacity s.home) s.reserved };
}

impl Shelf {
    /// A shelf with no block. It takes no memory.
    pub(crate) fn new(alloc: Global, class: u8) -> Shelf
        requires { (12 ≤ class) × (class ≤ 28) }
        ensures { result ≡ record { class = class; home = 0; lent = 0 } }
    {
        Shelf {
            class,
            home: Vec::new(alloc),
            reserved: 0,
        }
    }

    /// Adds `count` blocks that are home, and the room for them and the lent ones. It is refused where
    /// memory is wanting, or where there would be 2^32 blocks or more. The shelf is then as it was.
    pub(crate) fn reserve(&mut self, alloc: Global, count: u32) -> Result<(), AllocError>
        ensures class { self.new.class ≡ self.old.class }
        ensures ok { OnOk result ((self.new.home ≡ self.old.home + count) × (self.new.lent ≡ self.old.lent)) }
        ensures err { OnErr result (self.new ≡ self.old) }
    {
        let Some(reserved) = self.reserved.checked_add(count) else {
            return Err(AllocError);
        };
        self.home.reserve(reserved as usize - self.home.len())?;
        match add_blocks(&mut self.home, alloc, block_size(self.class), count) {
            Ok(()) => {
                self.reserved = reserved;
                Ok(())
            }
            Err(undone) => Err(undone.refused),
        }
    }

    /// Takes out a block that is home. None exactly where none is.
    pub(crate) fn lend(&mut self) -> Option<RawBlock>
        ensures none { IfNone result ((self.old.home ≡ 0) × (self.new ≡ self.old)) }
        ensures some { IfSome result (λ b. (length b ≡ 2 ^ self.old.class) × (self.new.class ≡ self.old.class) × (self.new.home + 1 ≡ self.old.home) × (self.new.lent ≡ self.old.lent + 1)) }
    {
        self.home.pop()
    }

    /// Takes a lent block home.
    pub(crate) fn bring(&mut self, block: RawBlock)
        requires lent { 0 < self.old.lent }
        requires size { length block ≡ 2 ^ self.old.class }
        ensures { (self.new.class ≡ self.old.class) × (self.new.home ≡ self.old.home + 1) × (self.new.lent + 1 ≡ self.old.lent) }
    {
        self.home.push_reserved(block);
    }

    /// How many blocks are home.
    pub(crate) fn count_home(&self) -> u32
        ensures { result ≡ self.now.home }
    {
        self.home.len() as u32
    }

    /// How many blocks are lent.
    pub(crate) fn count_lent(&self) -> u32
        ensures { result ≡ self.now.lent }
    {
        self.reserved - self.home.len() as u32
    }

    /// Frees the blocks, all of which are home. It is never refused, and the receipt tells how many
    /// there were.
    pub(crate) fn end(self) -> Freed
        requires { self.lent ≡ 0 }
        ensures freed { result ≡ self.home }
        ensures few { result < 2 ^ 32 }
    {
        let Shelf {
            class: _,
            mut home,
            reserved: _,
        } = self;
        let freed = free_behind(&mut home, 0);
        home.destroy_empty();
        freed
    }
}

/// What an addition that was refused tells: how many blocks it had made, each of which is freed again.
#[derive(Drop)]
struct Undone {
    refused: AllocError,
    made: u32,
    freed: Freed,
}

/// Adds `count` blocks of `size` bytes, for which there is room. After a refusal the blocks are those
/// that there were, and as many were freed as had been made.
fn add_blocks(
    blocks: &mut Vec<RawBlock>,
    alloc: Global,
    size: usize,
    count: u32,
) -> Result<(), Undone>
    requires size { (1 ≤ size) × (size ≤ 2 ^ 28) }
    requires room { vec_len blocks.old + count ≤ vec_capacity blocks.old }
    requires sized { All (λ b. length b ≡ size) blocks.old.items }
    ensures ok { OnOk result ((vec_len blocks.new ≡ vec_len blocks.old + count) × All (λ b. length b ≡ size) blocks.new.items) }
    ensures err { OnErr result (blocks.new.items ≡ blocks.old.items) }
    ensures freed { IfErr result (λ undone. (undone.freed ≡ undone.made) × (undone.made < count)) }
    ensures room { vec_capacity blocks.new ≡ vec_capacity blocks.old }
{
    let before = blocks.len();
    for made in 0..count {
        match RawBlock::new(alloc, size) {
            Ok(block) => blocks.push_reserved(block),
            Err(refused) => {
                let freed = free_behind(blocks, before);
                return Err(Undone {
                    refused,
                    made,
                    freed,
                });
            }
        }
    }
    Ok(())
}

/// Frees the blocks behind the first `keep`, and keeps the room that there is. The receipt tells how
/// many they were.
fn free_behind(blocks: &mut Vec<RawBlock>, keep: usize) -> Freed
    requires { keep ≤ vec_len blocks.old }
    ensures freed { result + keep ≡ vec_len blocks.old }
    ensures kept { blocks.new.items ≡ take keep blocks.old.items }
    ensures room { vec_capacity blocks.new ≡ vec_capacity blocks.old }
{
    let mut freed = Freed::none();
    for _place in keep..blocks.len() {
        freed = freed.and(blocks.take_last().free());
    }
    freed
}
