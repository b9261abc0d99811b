//! Words, as they stand on a command line or in a file, read into groups.
//!
//! `mlt_base` and `mlt_tree` stand below this crate: the latter has the types of groups, the table of
//! options and the definition of what words are made up of (`specs/Words.antt`). The crates that read
//! files of words and that build a composition stand above. Start reading at [`groups`].
#![tactic(auto)]

mod options;
mod property;
pub mod reading;

pub use mlt_base::{WordCause, WordFault};
pub use mlt_tree::{Group, GroupKind, GroupList, Prop, PropList, WordList};
pub use reading::groups;

#[cfg(test)]
mod tests;
