//! Starts of entries, and what can be asked of them.

ghost use Rattle.std.specs.Prelude.{◌≡◌, ◌+◌, ◌^◌, ◌≤◌, ◌<◌, [], All, length, sum, option_map, IsOk, OnOk, OnErr};
ghost use Rattle.mlt_base.specs.Walk.{walk};
ghost use Rattle.mlt_index.specs.Digits.{binary_digits};
ghost use Rattle.mlt_index.specs.Starts.{replaced};

use crate::ends::{make_room, rewrite, start_at};
use crate::search::{Counted, index_of};
use mlt_base::{Pos, Steps};
use std::alloc::{AllocError, Global};
use std::marker::Model;

/// Where the entries of a list begin, seen as the list of their numbers of frames.
///
/// Each number is at least 1, and their sum is below 2^31.
#[derive(Drop)]
pub struct Starts {
    // where each entry ends, and so where the next one begins
    ends: Vec<u32>,
}

impl Model for Starts {
    ghost use Rattle.std.specs.Prelude.{ℕ, List};
    ghost use Rattle.mlt_index.specs.Starts.{numbers_of, AreEnds};

    ghost Value = { List ℕ };

    ghost view = { λ starts. numbers_of 0 starts.ends.items };

    ghost invariant = { λ starts. AreEnds starts.ends.items };
}

impl Starts {
    /// Those of no entry. It takes no memory.
    pub fn new(alloc: Global) -> Starts
        ensures { result ≡ [] }
    {
        Starts {
            ends: Vec::new(alloc),
        }
    }

    /// How many entries there are.
    pub fn count(&self) -> usize
        ensures { result ≡ length self.now }
    {
        self.ends.len()
    }

    /// How many frames the entries have together, which is where the last one ends.
    pub fn sum(&self) -> u32
        ensures { result ≡ sum self.now }
    {
        start_at(&self.ends, self.ends.len())
    }

    /// Puts entries with these numbers of frames in place of so many from an index on. The entries
    /// before the index are not touched, and those behind are changed only where they begin elsewhere
    /// then.
    ///
    /// Where memory is wanted, nothing is changed. It is not wanted where there are at most as many new
    /// entries as are replaced.
    pub fn replace(&mut self, at: usize, removed: usize, frames: &[u32]) -> Result<(), AllocError>
        requires range { at + removed ≤ length self.old }
        requires some { All (λ n. 1 ≤ n) frames.now }
        requires short { sum (replaced self.old at removed frames.now) < 2 ^ 31 }
        ensures list { OnOk result (self.new ≡ replaced self.old at removed frames.now) }
        ensures same { OnErr result (self.new ≡ self.old) }
        ensures succeeds { length frames.now ≤ removed → IsOk result }
    {
        let start = start_at(&self.ends, at);
        let behind = start_at(&self.ends, at + removed);
        make_room(&mut self.ends, at, removed, frames.len())?;
        rewrite(&mut self.ends, at, start, frames, behind);
        Ok(())
    }

    /// The index of the entry that a position falls into, and the place in it; `None` exactly where the
    /// position isn't below the sum.
    ///
    /// A step is one comparison of the position with a start. There are as many as the count has binary
    /// digits, or one fewer.
    pub fn find(&self, at: Pos, steps: &mut Steps) -> Option<(usize, Pos)>
        requires { steps.old < 2 ^ 62 }
        ensures found { option_map (λ x. (x.0, x.1.0)) result ≡ walk self.now at.0 }
        ensures counted { steps.old ≤ steps.new }
        ensures few { steps.new ≤ steps.old + binary_digits (length self.now) }
        ensures least { steps.old + binary_digits (length self.now) ≤ steps.new + 1 }
    {
        let mut ends = Counted {
            ends: &self.ends,
            steps,
        };
        let index = index_of(&mut ends, at.0);
        if index == self.ends.len() {
            return None;
        }
        let place = at.0 - start_at(&self.ends, index);
        Some((index, Pos(place)))
    }
}
