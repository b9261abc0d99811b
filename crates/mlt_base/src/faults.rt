//! What is wrong with a list of words, and with an edit of a playlist.

ghost use Rattle.std.specs.Prelude.{◌≡◌};
ghost use Rattle.mlt_base.specs.declared.refusal.Try.TheVariants.{Fault};

use crate::refusal::Try;
use thiserror::Error;

/// Why a word is refused before it is known what the words mean.
#[derive(Clone, Copy, Debug, PartialEq, Eq, Error)]
pub enum WordCause {
    /// The word begins with `-`, has a further byte, and is no option.
    #[error("unknown option")]
    UnknownOption,
    /// The word is an option that is known and not supported.
    #[error("option not supported")]
    Unsupported,
    /// The word is an option that takes the next word, and none is left.
    #[error("argument missing")]
    MissingArgument,
    /// The word is a property without a name, behind no group, or behind one that takes none.
    #[error("property without an object")]
    StrayProperty,
    /// There are more words than this.
    #[error("more than {0}")]
    TooMany(u32),
}

/// The first fault of a list of words.
///
/// `place` is the place of the refused word, counted from 0.
#[derive(Clone, Copy, Debug, PartialEq, Eq, Error)]
#[error("word {place}: {cause}")]
pub struct WordFault {
    pub place: u32,
    pub cause: WordCause,
}

impl From<WordFault> for Try<WordFault> {
    ghost from_gives = { λ fault e. e ≡ Fault fault };

    fn from(fault: WordFault) -> Try<WordFault> {
        Try::Fault(fault)
    }
}

/// Why an edit of a playlist is refused. A number that doesn't fit its type is held to the greatest
/// that does.
#[derive(Clone, Copy, Debug, PartialEq, Eq, Error)]
pub enum PlayFault {
    /// No entry, or no clip, stands at the index of so many entries.
    #[error("no clip at {index} of {count}")]
    BadClip { index: u32, count: u32 },
    /// An entry of so many frames can't be split there.
    #[error("cannot split {frames} frames at {at}")]
    BadSplit { at: i64, frames: u32 },
    /// The frames from first to last don't lie within the length, or last is before first.
    #[error("bad range {first} to {last} of {length}")]
    BadRange { first: u32, last: u32, length: u32 },
    /// More entries are asked for than are there.
    #[error("{asked} wanted, {there} there")]
    TooFew { asked: u32, there: u32 },
    /// The list would have more entries than this.
    #[error("more than {limit}")]
    TooMany { limit: u32 },
    /// The list would have so many frames, which are too many.
    #[error("{frames} frames are too many")]
    TooLong { frames: u64 },
}

impl From<PlayFault> for Try<PlayFault> {
    ghost from_gives = { λ fault e. e ≡ Fault fault };

    fn from(fault: PlayFault) -> Try<PlayFault> {
        Try::Fault(fault)
    }
}
