//! From groups of words to a show: the composition that they make, and the table of its sources.
//!
//! [`build`] gives exactly the show of `mlt_tree`'s `specs/Sealing`, or its refusal with the place. Each
//! step is one small function with the name of its definition: `built` refuses what is not built yet,
//! `composition` takes the profile and then the groups in word order, `state`, `track`, `wanted`, `clips`,
//! `attach`, `merges` and `plant` do one group, `files` loads what a word names, and `seal` tests the whole at
//! the end. `object` keeps the properties of a group by name, `props` reads their values, and `groups`
//! finds those of a kind.
//!
//! Below stand `mlt_graph`, which the composition grows in, and `melt_words`, whose groups it reads; above,
//! the top call. Start reading at [`show`], then at `composition`.
#![tactic(auto)]

mod attach;
mod built;
mod clips;
mod composition;
mod consumer;
pub mod fault;
mod files;
pub mod groups;
mod merges;
mod object;
mod plant;
mod props;
mod refused;
mod seal;
mod service;
pub mod show;
mod state;
mod track;
mod wanted;

pub use fault::BuildFault;
pub use groups::first_two;
pub use show::build;

#[cfg(test)]
mod tests;
