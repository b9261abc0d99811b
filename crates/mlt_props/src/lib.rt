//! Properties by name, as words like `volume=3` give them to a clip, a filter or a transition.
//!
//! A [`Bag`] keeps them in order. A property is a text, a whole number or an owned value, such as a
//! loaded file. An owned value cannot be lost: one that a call replaces goes into the [`Bin`] that the
//! call takes.
//!
//! Below stands `mlt_base`, for the refusal that can also be want of memory; above, whatever reads
//! compositions. Start reading at [`bag`].
#![tactic(auto)]

pub mod bag;
pub mod bin;
mod held;
pub mod laws;

pub use bag::{BadName, Bag};
pub use bin::{Bin, Ends};

#[cfg(test)]
mod tests;
