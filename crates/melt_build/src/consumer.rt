//! The consumer of a composition, as it is read.

ghost use Rattle.std.specs.Prelude.{ℕ, ◌≤◌};
ghost use Rattle.mlt_tree.specs.declared.services.TheConstants as row;

use mlt_graph::Pix;

/// The output, by the place of its group; the first and the last position where they are given.
#[derive(Clone, Copy)]
pub(crate) struct Consumer<'a> {
    pub place: u32,
    pub video: &'a str,
    pub pix: Pix,
    pub workers: u32,
    pub buffer: u32,
    pub slices: u32,
    pub cache: u32,
    pub first: Option<u32>,
    pub last: Option<u32>,
    pub ghost few_workers: { workers ≤ row.REAL_TIME.high },
    pub ghost some_buffer: { row.BUFFER.low ≤ buffer },
    pub ghost short_buffer: { buffer ≤ row.BUFFER.high },
    pub ghost some_slices: { row.SLICES.low ≤ slices },
    pub ghost few_slices: { slices ≤ row.SLICES.high },
    pub ghost small_cache: { cache ≤ row.CACHE.high },
}
