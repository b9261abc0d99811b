//! A block of bytes of a fixed size, which owns its memory behind a pointer, and must be freed.
//!
//! Only std stands below. The pool of buffers stands above, and is the one crate that makes blocks.
//! All raw pointers of the repository are in the five functions of the module `cells`, each proved by
//! hand. Start reading at [`RawBlock`], then [`Freed`].
#![tactic(auto)]

pub mod block;
pub(crate) mod cells;

pub use block::RawBlock;
pub use cells::Freed;

#[cfg(test)]
mod tests;
