//! What stands at a position of a list, and copies of a part of it.

ghost use Rattle.std.specs.Prelude.{◌≡◌, ◌+◌, ◌≤◌, length, take, drop, option_map, IfOk};
ghost use Rattle.mlt_tree.specs.Edits as edit;

use crate::playlist::{EntryList, Playlist};
use mlt_base::{Pos, Steps};
use mlt_tree::{Entry, ItemList};
use std::alloc::{AllocError, Global};

/// A copy of the entries.
fn copy(alloc: Global, entries: &[Entry]) -> Result<EntryList, AllocError>
    ensures { IfOk result (λ list. list ≡ entries.now) }
{
    let mut all = Vec::with_capacity(alloc, entries.len())?;
    for entry in entries {
        all.push(entry.copy()?)?;
    }
    Ok(ItemList::from_vec(all))
}

impl Playlist {
    /// The index of the entry that has a position, and the place in that entry. `None` exactly where
    /// the position isn't below the length.
    pub fn clip_at(&self, at: Pos) -> Option<(usize, Pos)>
        ensures { option_map (λ x. (x.0, x.1.0)) result ≡ edit.clip_at self.now at.0 }
    {
        self.starts.find(at, &mut Steps::new())
    }

    /// A copy of n entries from an index on, with memory of its own.
    pub fn copy_range(&self, at: usize, n: usize) -> Result<EntryList, AllocError>
        requires { at + n ≤ length self.now }
        ensures { IfOk result (λ list. list ≡ take n (drop at self.now)) }
    {
        copy(self.alloc(), &self.entries[at..at + n])
    }
}
