//! What every other crate speaks of: positions, rates, profiles, texts, still pictures and the refusal
//! that can also be want of memory, and the readers of numbers, times, animations, geometries and
//! profiles.
//!
//! Each reader gives exactly the value of its grammar, or that grammar's first fault. The grammars
//! stand in `specs/`, that of PPM among them, whose reader is `mlt_ppm`; [`laws`] says which texts they
//! accept.
//!
//! Nothing stands below this crate. Start reading at [`profile`], and then at [`whole`].
#![tactic(auto)]

pub mod animation;
pub mod decimal;
pub mod fault;
pub mod faults;
pub mod geometry;
pub mod laws;
pub mod limits;
pub mod name;
pub mod port;
pub mod profile;
pub mod reading;
pub mod refusal;
pub mod samples;
mod spelling;
pub mod still;
pub mod table;
pub mod texts;
pub mod time;
pub mod value;
pub mod whole;

pub use animation::{Animation, Key};
pub use decimal::read_decimal;
pub use fault::{NumFault, PpmFault};
pub use faults::{PlayFault, WordCause, WordFault};
pub use geometry::Geometry;
pub use name::Name;
pub use port::Port;
pub use profile::{Pos, Profile, Rate, SourceNo};
pub use refusal::Try;
pub use still::Still;
pub use table::{DV_PAL, NamedProfile, PROFILES};
pub use texts::{Bytes, Text};
pub use time::read_time;
pub use value::{Q16, Span, Steps, UnitId};
pub use whole::read_whole;

#[cfg(test)]
mod tests;
