//! The faults that several edits answer.

ghost use Rattle.std.specs.Prelude.{◌≡◌, ◌≤◌, ◌-◌};
ghost use Rattle.mlt_base.specs.declared.limits.TheConstants.{MOST_ENTRIES};
ghost use Rattle.mlt_base.specs.Reading.{held};
ghost use Rattle.mlt_base.specs.declared.faults.PlayFault.TheVariants.{BadClip, BadRange, TooFew};

use mlt_base::PlayFault;

/// A number, held to the greatest that a fault can tell.
#[tactic(auto, unfolding(mlt_base::specs::Reading::held))]
pub(crate) fn held(n: usize) -> u32
    ensures { result ≡ held n }
{
    u32::try_from(n).unwrap_or(u32::MAX)
}

/// No entry, or no clip, stands at an index of a list of so many entries.
pub(crate) fn bad_clip(at: usize, count: usize) -> PlayFault
    requires { count ≤ MOST_ENTRIES }
    ensures { result ≡ BadClip (held at) count }
{
    PlayFault::BadClip {
        index: held(at),
        count: count as u32,
    }
}

/// The frames first to last don't lie within a length, or last is before first.
pub(crate) fn bad_range(first: u32, last: u32, length: u32) -> PlayFault
    ensures { result ≡ BadRange first last length }
{
    PlayFault::BadRange {
        first,
        last,
        length,
    }
}

/// More entries are asked for than stand from an index of a list of so many entries on.
pub(crate) fn too_few(at: usize, count: usize, asked: u32) -> PlayFault
    requires { count ≤ MOST_ENTRIES }
    ensures { result ≡ TooFew asked (count - at) }
{
    PlayFault::TooFew {
        asked,
        there: count.saturating_sub(at) as u32,
    }
}
