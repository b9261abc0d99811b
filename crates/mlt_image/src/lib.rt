//! Pictures: colours read from texts, filling, fitting and stretching, and what lies over black.
//!
//! A picture is a slice of bytes, four a pixel: red, green, blue and straight alpha, in rows from the
//! top. No call takes memory, and but for [`Colour::read`] none refuses. The formulas stand in
//! `mlt_base`, in `specs/Fitting`, `specs/Picture` and `specs/Colour`; `mlt_kernel`, by whose pixels the
//! loops go, stands below, and sources, filters and transitions stand above. Start reading at
//! [`frame::fit`], then [`stretch`].
#![tactic(auto)]

pub mod black;
pub mod colour;
pub mod frame;
pub mod rows;
pub mod stretch;
pub mod tile;

pub use black::{over_black, pack_rgb24};
pub use colour::Colour;
pub use frame::fit;
pub use stretch::stretch_at;
pub use tile::fill;

#[cfg(test)]
mod tests;
