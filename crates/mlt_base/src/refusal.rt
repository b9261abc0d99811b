//! A refusal that can also be want of memory.

ghost use Rattle.std.specs.Prelude.{◌≡◌};
ghost use Rattle.mlt_base.specs.declared.refusal.Try.TheVariants.{Memory};

use std::alloc::{AllocError, AllocFailed};

/// Why a call was refused: a fault of its own kind, or want of memory.
///
/// Want of memory is the one answer that no contract ties to a cause.
#[derive(Clone, Copy, Debug, PartialEq, Eq)]
pub enum Try<F> {
    Fault(F),
    Memory,
}

impl<F> From<AllocError> for Try<F> {
    ghost from_gives = { λ _ e. e ≡ Memory };

    fn from(_error: AllocError) -> Try<F> {
        Try::Memory
    }
}

impl<F, T: Drop> From<AllocFailed<T>> for Try<F> {
    ghost from_gives = { λ _ e. e ≡ Memory };

    fn from(_error: AllocFailed<T>) -> Try<F> {
        Try::Memory
    }
}
