//! A pool of byte buffers, kept by class of length, which lends a buffer and takes it home again.
//!
//! All memory is taken when buffers are reserved: lending one and bringing it home takes none, and
//! makes no pass over the bytes. The blocks come from `mlt_raw`, which stands below; frames and their
//! evaluation stand above. Start reading at [`Pool`], then [`Lease`].
#![tactic(auto)]

pub mod class;
pub mod lease;
pub mod pool;
pub(crate) mod shelf;

pub use lease::Lease;
pub use pool::Pool;

#[cfg(test)]
mod tests;
