//! The frames of entries.

ghost use Rattle.std.specs.Prelude.{◌≡◌, ◌+◌, ◌-◌, ◌*◌, ◌≤◌, ◌<◌, ◌^◌, length, IfOk};
ghost use Rattle.mlt_base.specs.Span.{span};
ghost use Rattle.mlt_tree.specs.Edits.{cut, frames_in};
ghost use Rattle.mlt_tree.specs.Ranges.{frames};

use mlt_base::{Pos, Span};
use mlt_tree::Entry;
use std::alloc::AllocError;

/// How many frames an entry has, at most 2^32.
pub(crate) fn frames_of(entry: &Entry) -> u64
    ensures value { result ≡ frames entry.now }
    ensures most { result ≤ 2 ^ 32 }
{
    match entry {
        Entry::Clip { span, .. } => {
            (u64::from(span.last.0) + 1).saturating_sub(u64::from(span.first.0))
        }
        Entry::Gap { frames } => u64::from(*frames),
    }
}

/// How many frames the entries have together.
pub(crate) fn total(entries: &[Entry]) -> u64
    requires { length entries.now ≤ 2 ^ 31 }
    ensures value { result ≡ frames_in entries.now }
    ensures most { result ≤ length entries.now * 2 ^ 32 }
{
    let mut all = 0;
    for entry in entries {
        all += frames_of(entry);
    }
    all
}

/// The frames a to before b of a span.
fn part(whole: Span, a: u32, b: u32) -> Span
    requires { (a < b) × (b ≤ whole.last.0 + 1 - whole.first.0) }
    ensures { result ≡ span (whole.first.0 + a) (whole.first.0 + b - 1) }
{
    Span {
        first: Pos(whole.first.0 + a),
        last: Pos(whole.first.0 + (b - 1)),
    }
}

/// The frames of an entry from a to before b, as an entry of their own with a copy of the filters.
pub(crate) fn copy_part(entry: &Entry, a: u32, b: u32) -> Result<Entry, AllocError>
    requires { (a < b) × (b ≤ frames entry.now) }
    ensures { IfOk result (λ half. half ≡ cut entry.now a b) }
{
    let mut half = entry.copy()?;
    narrow(&mut half, a, b);
    Ok(half)
}

/// Leaves of an entry its frames from a to before b, with the filters that it has.
pub(crate) fn narrow(entry: &mut Entry, a: u32, b: u32)
    requires { (a < b) × (b ≤ frames entry.old) }
    ensures { entry.new ≡ cut entry.old a b }
{
    match entry {
        Entry::Clip { span, .. } => *span = part(*span, a, b),
        Entry::Gap { frames } => *frames = b - a,
    }
}
