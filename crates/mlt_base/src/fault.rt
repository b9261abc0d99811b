//! What is wrong with the text of a number, and with a file of a picture.

ghost use Rattle.std.specs.Prelude.{◌≡◌};
ghost use Rattle.mlt_base.specs.declared.refusal.Try.TheVariants.{Fault};

use crate::refusal::Try;
use thiserror::Error;

/// The first fault of a text that should be a number, a time or an animation.
///
/// A place is counted in bytes from the text's start, and held to 2^32 - 1.
#[derive(Clone, Copy, Debug, PartialEq, Eq, Error)]
pub enum NumFault {
    /// Nothing stands where a number should.
    #[error("empty")]
    Empty,
    /// The byte at this place doesn't fit, or the text ends there too soon.
    #[error("bad digit at {0}")]
    BadDigit(u32),
    /// The number has the right form and is out of range.
    #[error("too large")]
    TooLarge,
    /// The part that begins at this place has a frame that isn't after the one before.
    #[error("out of order at {0}")]
    Order(u32),
    /// The mark `~=` at this place, which isn't supported.
    #[error("smooth at {0}")]
    Smooth(u32),
}

impl From<NumFault> for Try<NumFault> {
    ghost from_gives = { λ fault e. e ≡ Fault fault };

    fn from(fault: NumFault) -> Try<NumFault> {
        Try::Fault(fault)
    }
}

/// The first fault of a file that should be a binary PPM picture.
///
/// A place is counted in bytes from the file's start.
#[derive(Clone, Copy, Debug, PartialEq, Eq, Error)]
pub enum PpmFault {
    /// The file doesn't begin with `P6`.
    #[error("not P6")]
    NotP6,
    /// The header can't go on with the byte at this place, or ends there with the file; or the number
    /// that begins there is out of range.
    #[error("bad header at {0}")]
    BadHeader(u64),
    /// The picture has more than 4096 pixels in a row, or more than 4096 rows.
    #[error("too large")]
    TooLarge,
    /// So many bytes of samples are there, and so many are needed.
    #[error("{0} bytes of {1}")]
    Short(u64, u64),
}

impl From<PpmFault> for Try<PpmFault> {
    ghost from_gives = { λ fault e. e ≡ Fault fault };

    fn from(fault: PpmFault) -> Try<PpmFault> {
        Try::Fault(fault)
    }
}
