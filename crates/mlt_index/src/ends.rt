//! The kept ends: how room for others is made among them, and how they are written and moved.

ghost use Rattle.std.specs.Prelude.{◌≡◌, ◌+◌, ◌≤◌, ◌<◌, ◌^◌, ◌∷◌, All, map, length, take, drop, sum, slice_index, IsOk, OnOk, OnErr};
ghost use Rattle.mlt_index.specs.Ends.{IsMovable, moved, rewritten};
ghost use Rattle.mlt_index.specs.Starts.{ends_of};

use std::alloc::AllocError;

/// Where the entry at an index begins; at the count, where the last one ends.
pub(crate) fn start_at(ends: &[u32], at: usize) -> u32
    requires { at ≤ length ends.now }
    ensures { result ≡ slice_index (0 ∷ ends.now) at }
{
    if at == 0 {
        return 0;
    }
    ends[at - 1]
}

/// Makes room for so many ends in place of others from an index on; all or nothing is done.
pub(crate) fn make_room(
    ends: &mut Vec<u32>,
    at: usize,
    removed: usize,
    added: usize,
) -> Result<(), AllocError>
    requires range { at + removed ≤ length ends.old.items }
    requires fits { length ends.old.items + added < 2 ^ 63 }
    ensures before { OnOk result (take at ends.new.items ≡ take at ends.old.items) }
    ensures behind { OnOk result (drop (at + added) ends.new.items ≡ drop (at + removed) ends.old.items) }
    ensures len { OnOk result (length ends.new.items + removed ≡ length ends.old.items + added) }
    ensures same { OnErr result (ends.new.items ≡ ends.old.items) }
    ensures succeeds { added ≤ removed → IsOk result }
{
    if added == removed {
        return Ok(());
    }
    let count = ends.len();
    let left = count - removed + added;
    ends.resize(count.max(left), 0)?;
    ends.copy_within(at + removed..count, at + added);
    ends.truncate(left);
    Ok(())
}

/// Writes where each number ends, if the first begins at a start, and gives the end of the last.
fn write(ends: &mut [u32], start: u32, frames: &[u32]) -> u32
    requires len { length ends.old ≡ length frames.now }
    requires short { start + sum frames.now < 2 ^ 31 }
    ensures ends { ends.new ≡ ends_of start frames.now }
    ensures last { result ≡ start + sum frames.now }
{
    let mut last = start;
    for index in 0..ends.len() {
        last += frames[index];
        ends[index] = last;
    }
    last
}

/// Moves ends by as much as a place moves that none of them stands before.
fn shift(ends: &mut [u32], from: u32, to: u32)
    requires { All (IsMovable from to) ends.old }
    ensures { ends.new ≡ map (moved from to) ends.old }
{
    if from == to {
        return;
    }
    for end in ends.iter_mut() {
        *end = *end - from + to;
    }
}

/// Writes the ends of numbers from an index on, and moves the ends that stood behind a place.
pub(crate) fn rewrite(ends: &mut [u32], at: usize, start: u32, frames: &[u32], behind: u32)
    requires range { at + length frames.now ≤ length ends.old }
    requires short { start + sum frames.now < 2 ^ 31 }
    requires movable { All (IsMovable behind (start + sum frames.now)) (drop (at + length frames.now) ends.old) }
    ensures { ends.new ≡ rewritten ends.old at start frames.now behind }
{
    let next = at + frames.len();
    let end = write(&mut ends[at..next], start, frames);
    shift(&mut ends[next..], behind, end);
}
