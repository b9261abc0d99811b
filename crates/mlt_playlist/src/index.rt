//! The starts of entries, which change with the entries.

ghost use Rattle.std.specs.Prelude.{◌≡◌, ◌+◌, ◌≤◌, ◌<◌, ◌^◌, All, length, map, sum, IfOk};
ghost use Rattle.mlt_index.specs.Starts as numbers;
ghost use Rattle.mlt_tree.specs.Edits.{frames_in};
ghost use Rattle.mlt_tree.specs.Ranges.{IsEntry, frames};

use crate::cut::frames_of;
use mlt_index::Starts;
use mlt_tree::Entry;
use std::alloc::{AllocError, Global};

/// Puts numbers of frames in place of at least as many from an index on. It takes no memory.
pub(crate) fn exchange_starts(starts: &mut Starts, at: usize, n: usize, frames: &[u32])
    requires fewer { length frames.now ≤ n }
    requires range { at + n ≤ length starts.old }
    requires some { All (λ n. 1 ≤ n) frames.now }
    requires short { sum (numbers.replaced starts.old at n frames.now) < 2 ^ 31 }
    ensures { starts.new ≡ numbers.replaced starts.old at n frames.now }
{
    match starts.replace(at, n, frames) {
        Ok(()) => {}
        Err(_) => unreachable!(),
    }
}

/// How many frames each of the entries has.
pub(crate) fn frames_of_each(alloc: Global, entries: &[Entry]) -> Result<Vec<u32>, AllocError>
    requires { frames_in entries.now < 2 ^ 31 }
    ensures { IfOk result (λ each. each.items ≡ map frames entries.now) }
{
    let mut each = Vec::with_capacity(alloc, entries.len())?;
    for entry in entries {
        each.push(frames_of(entry) as u32)?;
    }
    Ok(each)
}

/// Where entries begin that stand one after another, each of at least one frame.
pub fn starts_of(alloc: Global, entries: &[Entry]) -> Result<Starts, AllocError>
    requires entries { All IsEntry entries.now }
    requires short { frames_in entries.now < 2 ^ 31 }
    ensures { IfOk result (λ starts. starts ≡ map frames entries.now) }
{
    let frames = frames_of_each(alloc, entries)?;
    let mut starts = Starts::new(alloc);
    starts.replace(0, 0, &frames)?;
    Ok(starts)
}
