//! Merges of two pictures: a transition leaves exactly the bytes that its formula says, in the first of them.
//!
//! A picture is a slice of bytes, four a pixel: red, green, blue and straight alpha, in rows from the top.
//! Only [`KeptColumns::new`] takes memory, and nothing else refuses. The formulas stand in `mlt_tree`, in `specs/Merges`;
//! `mlt_kernel`, by whose pixels the loops go, `mlt_image`, which stretches, and `mlt_slice`, by whose bands
//! the rows go, stand below, and what evaluates a frame stands above. Start reading at [`merge_pictures`],
//! then [`rows`].
#![tactic(auto)]

pub mod columns;
pub mod composite;
pub mod laws;
pub mod matte;
pub mod rows;
pub mod shares;
pub mod step;
pub mod wipe;

pub use columns::{Columns, KeptColumns};
pub use rows::MergeRows;
pub use shares::Shares;
pub use step::{merge_again, merge_from, merge_pictures};

#[cfg(test)]
mod tests;
