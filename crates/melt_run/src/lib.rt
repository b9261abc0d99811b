//! The top call: from words to bytes on the ports of a host.
//!
//! [`melt`] reads the words, plays or prints what they mean, and tells a person what went wrong. Its
//! contract is the headline of the whole product. Start reading at [`run`], then [`prepared`], [`play`]
//! and [`text`]; the relations that their clauses cite stand in `specs/`. Only the program stands above.
#![tactic(auto)]

pub mod gate;
pub mod line;
pub mod play;
pub mod position;
pub mod prepared;
pub mod run;
pub mod status;
pub mod text;

pub use gate::{Free, Gate};
pub use mlt_tree::QueryKind;
pub use play::play_serial;
pub use position::render_position;
pub use prepared::{Prepared, prepare};
pub use run::melt;
pub use status::{Status, Tally};
pub use text::{TextJob, melt_text};

#[cfg(test)]
mod tests;
