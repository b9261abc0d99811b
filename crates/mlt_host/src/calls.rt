//! How often a disk was called, and how often it has failed.

ghost use Rattle.std.specs.Prelude.{◌≡◌};
ghost use Rattle.mlt_host.specs.Count.{next, port_count};
ghost use Rattle.mlt_host.specs.Disk.{open_count};

use crate::{Failed, OpenFault};

/// How often a disk was asked to open and to create a file, and how often it could not. A count stands at the
/// last number of 64 bits.
#[derive(Drop)]
pub(crate) struct Calls {
    opens: u64,
    creates: u64,
    failures: u64,
}

impl Calls {
    /// The counts of a disk that was not called.
    pub(crate) fn new() -> Calls {
        Calls {
            opens: 0,
            creates: 0,
            failures: 0,
        }
    }

    /// Counts an open, and its failure where it has failed.
    pub(crate) fn count_open<T>(&mut self, opened: &Result<T, OpenFault>)
        ensures opens { self.new.opens ≡ next self.old.opens }
        ensures creates { self.new.creates ≡ self.old.creates }
        ensures failures { self.new.failures ≡ open_count opened.now self.old.failures }
    {
        self.opens = self.opens.saturating_add(1);
        if let Err(OpenFault::Failed) = opened {
            self.failures = self.failures.saturating_add(1);
        }
    }

    /// Counts a create, and its failure where it has failed.
    pub(crate) fn count_create<T>(&mut self, created: &Result<T, Failed>)
        ensures opens { self.new.opens ≡ self.old.opens }
        ensures creates { self.new.creates ≡ next self.old.creates }
        ensures failures { self.new.failures ≡ port_count created.now self.old.failures }
    {
        self.creates = self.creates.saturating_add(1);
        if created.is_err() {
            self.failures = self.failures.saturating_add(1);
        }
    }
}
