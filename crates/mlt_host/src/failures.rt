//! The calls of a host in memory that are to fail.

ghost use Rattle.std.specs.Prelude.{◌≡◌};
ghost use Rattle.mlt_host.specs.Failures.{failure_at};

/// A call that is to fail, and how many bytes it keeps where it is an append.
#[derive(Clone, Copy, Debug)]
pub(crate) struct Failure {
    pub(crate) call: u64,
    pub(crate) kept: u64,
}

/// How many bytes the call of that number keeps, where it is to fail. The first of its entries counts.
pub(crate) fn failure_at(failures: &[Failure], call: u64) -> Option<u64>
    ensures { result ≡ failure_at failures.now call }
{
    failures
        .iter()
        .find(|failure| failure.call == call)
        .map(|failure| failure.kept)
}
