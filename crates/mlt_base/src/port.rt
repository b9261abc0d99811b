//! The outputs that a run may write.

/// An output of a run, of which a host has one each.
#[derive(Clone, Copy, Debug, PartialEq, Eq)]
pub enum Port {
    /// The frames' pictures.
    Video,
    /// The frames' sound.
    Audio,
    /// A composition written as words, one a line.
    Script,
    /// What a person reads: answers to questions, and fault lines.
    Text,
}
