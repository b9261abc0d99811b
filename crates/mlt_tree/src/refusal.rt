//! Why words are refused, and where.

ghost use Rattle.std.specs.Prelude.{◌≡◌};
ghost use Rattle.mlt_base.specs.declared.refusal.Try.TheVariants.{Fault};
ghost use Rattle.mlt_tree.specs.declared.refusal.Cause.TheVariants.{BadNumber as BadNumberOf, BadPicture as BadPictureOf};
ghost use Rattle.mlt_tree.specs.Refusing.{refusal_at, edit_cause, word_cause};

use mlt_base::{NumFault, PlayFault, PpmFault, Try, WordCause, WordFault};

/// The cause of a refusal, with its numbers. `specs/Lines.antt` has the text of each.
#[derive(Clone, Copy, Debug, PartialEq, Eq)]
pub enum Cause {
    /// A word that begins with `-` and is no option.
    UnknownOption,
    /// An option, a service or a property that is not done.
    Unsupported,
    /// An option at the end that wants an argument.
    MissingArgument,
    /// A property that stands behind nothing that takes one, or has no name.
    StrayProperty,
    /// A producer, consumer, filter or transition that is none.
    UnknownService,
    /// A value that is none of its kind.
    BadValue,
    /// A number or time that cannot be read.
    BadNumber(NumFault),
    /// A whole number outside its range.
    OutOfRange { value: i64, low: i64, high: i64 },
    /// More entries are asked for than are there.
    TooFew { asked: u32, there: u32 },
    /// No entry, or no clip, at an index of so many entries.
    BadClip { index: u32, count: u32 },
    /// An entry of so many frames can't be split there.
    BadSplit { at: i64, frames: u32 },
    /// A range whose first is behind its last, or whose last is not below the length.
    BadRange { first: u32, last: u32, length: u32 },
    /// A merge for a mix, where none was made since the track began.
    NoMix,
    /// What is planted is on a track that isn't there, of so many.
    BadTrack { no: u32, tracks: u32 },
    /// A merge of a track with itself.
    SameTrack { no: u32 },
    /// Nothing would be played.
    NoProducer,
    /// More than a limit allows.
    TooMany { limit: u32 },
    /// More frames than a playlist has, or than a run writes.
    TooLong { frames: u64 },
    /// Units that are nested too deep.
    TooDeep { depth: u32 },
    /// More bytes than a run holds.
    TooLarge { bytes: u64 },
    /// A file of more bytes than may be loaded.
    FileTooLarge { limit: u64 },
    /// A file that is no picture.
    BadPicture(PpmFault),
}

impl From<NumFault> for Cause {
    ghost from_gives = { λ fault cause. cause ≡ BadNumberOf fault };

    fn from(fault: NumFault) -> Cause {
        Cause::BadNumber(fault)
    }
}

impl From<PpmFault> for Cause {
    ghost from_gives = { λ fault cause. cause ≡ BadPictureOf fault };

    fn from(fault: PpmFault) -> Cause {
        Cause::BadPicture(fault)
    }
}

impl From<PlayFault> for Cause {
    ghost from_gives = { λ fault cause. cause ≡ edit_cause fault };

    fn from(fault: PlayFault) -> Cause {
        match fault {
            PlayFault::BadClip { index, count } => Cause::BadClip { index, count },
            PlayFault::BadSplit { at, frames } => Cause::BadSplit { at, frames },
            PlayFault::BadRange {
                first,
                last,
                length,
            } => Cause::BadRange {
                first,
                last,
                length,
            },
            PlayFault::TooFew { asked, there } => Cause::TooFew { asked, there },
            PlayFault::TooMany { limit } => Cause::TooMany { limit },
            PlayFault::TooLong { frames } => Cause::TooLong { frames },
        }
    }
}

impl From<WordCause> for Cause {
    ghost from_gives = { λ word cause. cause ≡ word_cause word };

    fn from(cause: WordCause) -> Cause {
        match cause {
            WordCause::UnknownOption => Cause::UnknownOption,
            WordCause::Unsupported => Cause::Unsupported,
            WordCause::MissingArgument => Cause::MissingArgument,
            WordCause::StrayProperty => Cause::StrayProperty,
            WordCause::TooMany(limit) => Cause::TooMany { limit },
        }
    }
}

/// A refusal of a list of words, with nothing created.
///
/// `word` is the place of the refused word, counted from 0, or the number of words where they end too
/// early. `inner` is the place within the file that the word names, where the cause stands there.
#[derive(Clone, Copy, Debug, PartialEq, Eq)]
pub struct Refusal {
    pub word: u32,
    pub inner: Option<u32>,
    pub cause: Cause,
}

impl Refusal {
    /// The refusal of a word of the run's own for this cause.
    pub fn at(word: u32, cause: Cause) -> Refusal
        ensures { result ≡ refusal_at word cause }
    {
        Refusal {
            word,
            inner: None,
            cause,
        }
    }
}

impl From<WordFault> for Refusal {
    ghost from_gives = { λ fault refusal. refusal ≡ refusal_at fault.place (word_cause fault.cause) };

    fn from(fault: WordFault) -> Refusal {
        Refusal::at(fault.place, Cause::from(fault.cause))
    }
}

impl From<Refusal> for Try<Refusal> {
    ghost from_gives = { λ refusal e. e ≡ Fault refusal };

    fn from(refusal: Refusal) -> Try<Refusal> {
        Try::Fault(refusal)
    }
}
