//! Binary PPM pictures, read and written.
//!
//! A file is read exactly as the grammar says, or refused with its first fault; what is written of a
//! picture without transparency is read as that picture. The grammar stands in `mlt_base`, which is
//! below; sources of pictures stand above. Start reading at [`read`], then [`write`].
#![tactic(auto)]

pub mod file;
pub(crate) mod header;
pub(crate) mod raster;

pub use file::{read, write};

#[cfg(test)]
mod tests;
