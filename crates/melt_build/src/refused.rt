//! Faults as the refusal of a word or a group, by its place.

ghost use Rattle.std.specs.Prelude.{◌≡◌};
ghost use Rattle.mlt_tree.specs.Refusing.{at_word as at_word_of, at_group as at_group_of};
ghost use Rattle.melt_build.specs.Edited.{edited_at};
ghost use Rattle.melt_build.specs.Reads.{at_place as at_place_of};

use mlt_base::{NumFault, PlayFault, Try};
use mlt_tree::{Cause, Refusal};

/// A value, or its cause as the refusal of the word at a place.
pub(crate) fn at_place<T>(place: u32, read: Result<T, Cause>) -> Result<T, Refusal>
    ensures { result ≡ at_place_of place read }
{
    match read {
        Ok(value) => Ok(value),
        Err(cause) => Err(Refusal::at(place, cause)),
    }
}

/// A number, or its fault as the refusal of the word at a place.
pub(crate) fn at_word<T>(place: u32, read: Result<T, NumFault>) -> Result<T, Refusal>
    ensures { result ≡ at_word_of place read }
{
    match read {
        Ok(value) => Ok(value),
        Err(fault) => Err(Refusal::at(place, Cause::from(fault))),
    }
}

/// An edit's answer, or its refusal as that of the group at a place.
pub(crate) fn at_group<T>(place: u32, done: Result<T, PlayFault>) -> Result<T, Refusal>
    ensures { result ≡ at_group_of place done }
{
    match done {
        Ok(answer) => Ok(answer),
        Err(fault) => Err(Refusal::at(place, Cause::from(fault))),
    }
}

/// The same of an edit that takes memory.
pub(crate) fn edited<T>(place: u32, done: Result<T, Try<PlayFault>>) -> Result<T, Try<Refusal>>
    ensures { result ≡ edited_at place done }
{
    match done {
        Ok(answer) => Ok(answer),
        Err(Try::Fault(fault)) => Err(Try::Fault(Refusal::at(place, Cause::from(fault)))),
        Err(Try::Memory) => Err(Try::Memory),
    }
}
