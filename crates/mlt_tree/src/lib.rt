//! What a composition means: the plain types and the definitions that every contract above cites.
//!
//! The definitions stand in `specs/`, one subject each. A newcomer reads `Tree` (what a composition is),
//! `Meaning` (what it has at a position), then `Show` (the bytes of a run), `Reading` (what words mean)
//! and `Lines` (what a person is told). They know nothing of stacks, buffers, workers or
//! hosts. Below stands `mlt_base`; all crates that build, start or render a composition stand above.
#![tactic(auto)]

pub mod draft;
pub mod entry;
pub mod filter;
pub mod group;
pub mod laws;
pub mod limits;
pub mod lists;
pub mod merge;
pub mod node;
pub mod query;
pub mod refusal;
pub mod row;
pub mod services;
pub mod table;
pub mod tree;

pub use draft::{Draft, Pending, PendingPlant};
pub use entry::Entry;
pub use filter::{FilterSpec, FilterStep};
pub use group::{Group, GroupKind, Prop};
pub use lists::{FilterList, GroupList, ItemList, PropList, WordList};
pub use merge::{MergeSpec, MergeStep};
pub use node::{Body, Node, Track};
pub use query::QueryKind;
pub use refusal::{Cause, Refusal};
pub use row::{
    Animated, Area, Choice, Count, Distance, FileName, Letters, Moment, Number, Property, Share,
};
pub use services::{FilterKind, MergeKind, Producer};
pub use table::{OPTIONS, Row};
pub use tree::{Attached, Hide, Plant, SourceKind};
