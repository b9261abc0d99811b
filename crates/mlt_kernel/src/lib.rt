//! Kernels: the loops over the bytes of pictures, each of which leaves exactly what its formula says.
//!
//! A picture is a slice of bytes, four a pixel: red, green, blue and alpha. Alpha is straight. No call
//! takes memory and none refuses. The formulas stand in `mlt_base`, in `specs/Mixing`; pictures, filters
//! and transitions stand above. Start reading at [`dissolve::dissolve`], then [`pixel`], by which
//! the other kernels read and write.
#![tactic(auto)]

pub mod dissolve;
pub mod over;
pub mod pixel;
pub mod scale;
mod share;

pub use pixel::Pixel;

#[cfg(test)]
mod tests;
