//! Frames that are started: the operations that make the picture and the sound of a position.
//!
//! A composition is walked down to the sources that show at the position, and what is found there is pushed,
//! as operations of `mlt_frame`. Where something planted on tracks acts, it is first found out which of them
//! what shows is made of, and only these are walked. Nothing is read of pictures or sounds, and nothing takes
//! memory.
//!
//! Below stand `mlt_graph`, whose [`mlt_graph::Sealed`] is what is played, and `mlt_frame`; above, whatever
//! evaluates frames. Start reading at [`start`]; which operations a tree has is `code` in `specs/Code`.
#![tactic(auto)]

mod asked;
mod has;
mod place;
mod plan;
mod plants;
mod push;
mod start_frame;
mod walk;

pub use start_frame::start;

#[cfg(test)]
mod tests;
