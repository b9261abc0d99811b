//! Playlists: lists of entries, and the edits of them.
//!
//! A [`Playlist`] is seen as its list of entries. Each edit gives exactly the list and the answer of
//! `mlt_tree`'s `specs/Edits`, or its refusal, and then the list stays as it was. Each also changes
//! where the entries begin, which a list keeps beside them, so that a position is found by halving.
//!
//! Below stand `mlt_base`, for the faults, `mlt_index`, for the starts, and `mlt_tree`, for the
//! entries and the meaning of the edits; above, whatever builds units from lists. Start reading at
//! [`playlist`], then at [`splice`].
#![tactic(auto)]

pub mod added;
pub mod changed;
pub(crate) mod cut;
pub(crate) mod divide;
pub mod gaps;
pub mod index;
pub mod joins;
pub mod lookup;
pub mod moved;
pub mod overlap;
pub mod parts;
pub mod playlist;
pub(crate) mod refused;
pub mod regions;
pub mod splice;

pub use index::starts_of;
pub use playlist::{EntryList, MixParts, Playlist};

#[cfg(test)]
mod tests;
