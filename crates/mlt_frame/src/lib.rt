//! Frames that are started and not yet rendered: a position, the operations that make its picture and
//! its sound, and the buffer that its bytes go to.
//!
//! The steps of filters and merges come from `mlt_tree`, and leases from `mlt_pool`, which stand below.
//! What starts a frame and what evaluates it stand above. Start reading at [`Op`], whose meaning stands
//! in `specs/Registers`, then [`OpStack`] and [`Frame`].
#![tactic(auto)]

pub mod frame;
pub mod laws;
pub mod op;
pub mod stack;

pub use frame::Frame;
pub use op::Op;
pub use stack::{OpStack, Ops};

#[cfg(test)]
mod tests;
