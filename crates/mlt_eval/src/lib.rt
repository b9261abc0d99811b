//! Evaluation of a started frame: from its operations to the bytes that are written.
//!
//! Pictures that were fitted are lent and never copied where nothing changes them; all others are made
//! in the blocks of a rack, so that rendering takes no memory. Frames and their operations come from
//! `mlt_frame`, sources from `mlt_source`, filters from `mlt_vfilter`, merges from `mlt_trans` and blocks
//! from `mlt_pool`, which stand below; what plays a show stands above. Start reading at [`render`],
//! [`Fitted`] and [`Rack`].
#![tactic(auto)]

pub(crate) mod block;
pub mod fitted;
pub mod frame;
pub(crate) mod merging;
pub(crate) mod operation;
pub(crate) mod packing;
pub mod rack;
pub mod register;
pub mod rendered;
pub(crate) mod scene;

pub use fitted::Fitted;
pub use frame::render;
pub use rack::Rack;
pub use rendered::Rendered;

#[cfg(test)]
mod tests;
