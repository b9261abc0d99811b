//! Work that is done row by row, and the ways in which the rows of a picture are gone through.
//!
//! What is done to a row depends on the row's number and its own bytes alone, so that rows may be worked
//! in any order. Nothing of this repository stands below; filters and transitions stand above. Start
//! reading at [`RowByRow`], then [`RowWork`] and [`Bands`].
#![tactic(auto)]

pub mod each;
pub mod from;
pub mod laws;
pub mod packed;
pub mod rows;

pub use each::{RowByRow, run_rows};
pub use from::run_from;
pub use packed::{RowPack, run_packed};
pub use rows::{Alone, Bands, RowWork};

#[cfg(test)]
mod tests;
