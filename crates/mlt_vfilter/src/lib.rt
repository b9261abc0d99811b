//! Filters of pictures: each leaves exactly the bytes that its formula says, in the picture itself.
//!
//! A picture is a slice of bytes, four a pixel: red, green, blue and straight alpha, in rows from the top.
//! No call takes memory and none refuses. The formulas stand in `mlt_tree`, in `specs/Filters`;
//! `mlt_kernel`, by whose pixels the loops go, and `mlt_slice`, by whose loop the rows go, stand below,
//! and what evaluates a frame stands above. Start reading at [`apply`], then [`rows`] and [`pixels`].
#![tactic(auto)]

pub mod crop;
pub mod greyscale;
pub mod invert;
pub mod laws;
pub mod mirror;
pub mod obscure;
pub mod opacity;
pub mod pixels;
pub mod rows;
pub mod sepia;
pub mod step;
pub mod swapchannels;
pub mod threshold;

pub use rows::{FilterRows, filter_row, goes_by_rows};
pub use step::{apply, apply_from, leaves};

#[cfg(test)]
mod tests;
