//! The pool: the blocks of all classes, and the calls that lend them and bring them home.

ghost use Rattle.std.specs.Prelude.{◌≡◌, ◌⊎◌, ◌+◌, ◌^◌, ◌<◌, ◌≤◌, length, map, sum, All, IfSome, IfNone, OnSome, OnOk, OnErr};
ghost use Rattle.mlt_pool.specs.Class.{class_of};
ghost use Rattle.mlt_pool.specs.Counts.{Counts, home_of, lent_of, all_home, all_lent, no_blocks, added, lent_out, brought, IsOneLent, IsAdded};

use crate::class::{self, GREATEST, LEAST};
use crate::lease::Lease;
use crate::shelf::Shelf;
use mlt_raw::Freed;
use std::alloc::{AllocError, Global};
use std::array;
use std::marker::Model;

/// How many classes there are.
const CLASSES: usize = 17;

/// Blocks by class, each of which is home or lent.
///
/// Contracts see a pool as two numbers for each class, 12 to 28: how many blocks are home and how many
/// are lent. Together they are as many as were reserved. A pool can't be dropped: it is spent by
/// [`Pool::close`]. It may go to another thread, since all that it holds may.
pub struct Pool {
    shelves: [Shelf; CLASSES],
    alloc: Global,
}

impl Model for Pool {
    ghost use Rattle.mlt_pool.specs.Counts.{Counts};
    ghost use Rattle.mlt_pool.specs.Tally.{counts_of, AreShelves};

    ghost Value = { Counts };

    ghost view = { λ p. counts_of p.shelves };

    ghost invariant = { λ p. AreShelves p.shelves };
}

impl Pool {
    /// A pool with no block. It takes no memory.
    pub fn new(alloc: Global) -> Pool
        ensures { result ≡ no_blocks }
    {
        let shelf = |index: usize| -> Shelf
            requires { index < CLASSES }
            ensures { result ≡ record { class = 12 + index; home = 0; lent = 0 } }
        { Shelf::new(alloc, LEAST + index as u8) };
        Pool {
            shelves: array::from_fn(shelf),
            alloc,
        }
    }

    /// Adds `count` blocks of the class, which are home. It is refused where memory is wanting, or where
    /// the class would have 2^32 blocks or more. The pool is then as it was, and each block that was
    /// made is freed again.
    pub fn reserve(&mut self, class: u8, count: u32) -> Result<(), AllocError>
        requires { (12 ≤ class) × (class ≤ 28) }
        ensures ok { OnOk result (self.new ≡ added class count self.old) }
        ensures counts { OnOk result (IsAdded class count self.old self.new) }
        ensures err { OnErr result (self.new ≡ self.old) }
    {
        let alloc = self.alloc;
        let shelf = &mut self.shelves[usize::from(class - LEAST)];
        shelf.reserve(alloc, count)
    }

    /// Lends a block of the length's class, as a lease of exactly that length, at most 2^28 bytes.
    /// None exactly where no block of the class is home. It takes no memory.
    pub fn lend(&mut self, len: usize) -> Option<Lease>
        requires { len ≤ 2 ^ 28 }
        ensures none { IfNone result ((home_of self.old (class_of len) ≡ 0) × (self.new ≡ self.old)) }
        ensures some { IfSome result (λ l. (length l ≡ len) × (self.new ≡ lent_out (class_of len) 1 self.old)) }
        ensures counts { OnSome result (IsOneLent (class_of len) self.old self.new) }
    {
        let class = class::of_length(len);
        let shelf = &mut self.shelves[usize::from(class - LEAST)];
        let block = shelf.lend()?;
        Some(Lease::new(block, len, class))
    }

    /// Takes the block of a lease home. It takes no memory.
    pub fn home(&mut self, lease: Lease)
        requires { 0 < lent_of self.old (class_of (length lease)) }
        ensures new { self.new ≡ brought (class_of (length lease)) 1 self.old }
        ensures counts { IsOneLent (class_of (length lease)) self.new self.old }
    {
        let shelf = &mut self.shelves[usize::from(lease.class() - LEAST)];
        shelf.bring(lease.into_block());
    }

    /// How many blocks are lent, of all classes together.
    pub fn lent(&self) -> u64
        ensures { result ≡ all_lent self.now }
    {
        let mut total = 0;
        for shelf in &self.shelves {
            total += u64::from(shelf.count_lent());
        }
        total
    }

    /// How many blocks of the class are home. No other class than 12 to 28 has any.
    pub fn is_home(&self, class: u8) -> u32
        ensures of_class { 12 ≤ class → class ≤ 28 → result ≡ home_of self.now class }
        ensures of_none { (class < 12) ⊎ (28 < class) → result ≡ 0 }
    {
        if class < LEAST || class > GREATEST {
            return 0;
        }
        self.shelves[usize::from(class - LEAST)].count_home()
    }

    /// Frees the blocks, none of which is lent. It is never refused, and the receipt tells how many
    /// blocks there were.
    pub fn close(self) -> Freed
        requires { all_lent self ≡ 0 }
        ensures { result ≡ all_home self }
    {
        let Pool { shelves, alloc: _ } = self;
        end_all(shelves)
    }
}

/// Frees the blocks of the shelves, all of which are home.
fn end_all(shelves: [Shelf; CLASSES]) -> Freed
    requires { All (λ s. s.lent ≡ 0) shelves }
    ensures { result ≡ sum (map (λ s. s.home) shelves) }
{
    let [
        of_12,
        of_13,
        of_14,
        of_15,
        of_16,
        of_17,
        of_18,
        of_19,
        of_20,
        of_21,
        of_22,
        of_23,
        of_24,
        of_25,
        of_26,
        of_27,
        of_28,
    ] = shelves;
    of_12
        .end()
        .and(of_13.end())
        .and(of_14.end())
        .and(of_15.end())
        .and(of_16.end())
        .and(of_17.end())
        .and(of_18.end())
        .and(of_19.end())
        .and(of_20.end())
        .and(of_21.end())
        .and(of_22.end())
        .and(of_23.end())
        .and(of_24.end())
        .and(of_25.end())
        .and(of_26.end())
        .and(of_27.end())
        .and(of_28.end())
}
