//! Where the entries of a list begin, kept beside the list, so that a position's entry is found by
//! halving and not by a walk along the list.
//!
//! Playlists, which stand above, keep one beside their entries and change both together. Positions
//! and the counter of steps come from `mlt_base`, which stands below. Start reading at [`Starts`].
#![tactic(auto)]

mod ends;
mod search;
pub mod starts;

pub use starts::Starts;

#[cfg(test)]
mod tests;
