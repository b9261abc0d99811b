//! What may be asked with `-query`.

/// A list of names that `-query` prints.
#[derive(Clone, Copy, Debug, PartialEq, Eq)]
pub enum QueryKind {
    Producers,
    Filters,
    Transitions,
    Consumers,
    Profiles,
}
