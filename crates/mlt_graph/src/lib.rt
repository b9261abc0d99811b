//! Units that refer to each other, the tracks of a tractor before it is made, and what is played in the end.
//!
//! A [`Graph`] grows by one unit at a time, or by a filter or a merge on one of them, and is sealed when all is
//! there: a [`Sealed`] stands for one tree, whose length and needs are known. A [`Show`] is that, with the size and
//! rate of the frames and where they go.
//!
//! Below stand `mlt_tree`, whose `specs/Units` says which tree a unit stands for, `mlt_playlist`, whose
//! lists are the entries of units and tracks, and `mlt_index`, for where these begin; above, whatever
//! builds a composition or renders it.
//! Start reading at [`Graph`].
#![tactic(auto)]

mod closed;
pub mod fault;
pub mod graph;
pub mod laws;
pub mod level;
mod misplaced;
mod mix;
mod pending;
pub mod sealed;
pub mod show;
mod size;
mod weight;

pub use fault::GraphFault;
pub use graph::Graph;
pub use level::Level;
pub use sealed::Sealed;
pub use show::{Format, Output, Pix, Show, pairs_of, unit_of};

#[cfg(test)]
mod tests;
