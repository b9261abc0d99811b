//! Sources: colours and pictures by their numbers, and the picture of each in a frame.
//!
//! What a source means stands in `mlt_tree`, in `specs/Show`. Pictures are fitted and filled by
//! `mlt_image`, which is below; building a composition and rendering it stand above. Start reading at
//! [`SourceTable`].
#![tactic(auto)]

pub mod source;
pub mod table;

pub use source::Source;
pub use table::SourceTable;

#[cfg(test)]
mod tests;
