//! Why groups make no show.

ghost use Rattle.std.specs.Prelude.{◌≡◌};
ghost use Rattle.melt_build.specs.Failing.{fault_of, lifted as lifted_of};
ghost use Rattle.melt_build.specs.declared.fault.BuildFault.TheVariants.{Refused as RefusedOf, Memory as MemoryOf};

use mlt_base::Try;
use mlt_tree::Refusal;
use std::alloc::AllocError;

/// Why groups make no show.
#[derive(Clone, Copy, Debug, PartialEq, Eq)]
pub enum BuildFault {
    /// The groups are refused.
    Refused(Refusal),
    /// The file that the word at this place names can't be read.
    SourceFault(u32),
    /// Memory was wanting.
    Memory,
}

impl From<Refusal> for BuildFault {
    ghost from_gives = { λ refusal fault. fault ≡ RefusedOf refusal };

    fn from(refusal: Refusal) -> BuildFault {
        BuildFault::Refused(refusal)
    }
}

impl From<AllocError> for BuildFault {
    ghost from_gives = { λ error fault. fault ≡ MemoryOf };

    fn from(_error: AllocError) -> BuildFault {
        BuildFault::Memory
    }
}

impl From<Try<Refusal>> for BuildFault {
    ghost from_gives = { λ refused fault. fault ≡ fault_of refused };

    fn from(refused: Try<Refusal>) -> BuildFault {
        match refused {
            Try::Fault(refusal) => BuildFault::Refused(refusal),
            Try::Memory => BuildFault::Memory,
        }
    }
}

/// The answer of a step that looks up no file.
pub(crate) fn lifted<T>(done: Result<T, Try<Refusal>>) -> Result<T, BuildFault>
    ensures { result ≡ lifted_of done }
{
    match done {
        Ok(answer) => Ok(answer),
        Err(refused) => Err(BuildFault::from(refused)),
    }
}
