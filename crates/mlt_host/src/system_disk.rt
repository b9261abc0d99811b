//! The files of the system.
//!
//! This is where the proofs end: no contract can say which file the system opens for a name, nor what
//! becomes of the bytes that are written to it.

ghost use Rattle.std.specs.Prelude.{◌≡◌, ◌↔◌, ◌⊎◌};

use crate::calls::Calls;
use crate::{Counted, Disk, Failed, OpenFault};
use std::fs::{File, OpenFile};
use std::io::ErrorKind;
use std::rt::Files;

/// The files of the system that a runtime opens. It tells nothing of them but its counts.
#[derive(Drop)]
pub struct SystemDisk<R: Files + Drop> {
    rt: R,
    calls: Calls,
}

/// Why an open failed: `Missing` where the system found no file of the name, else `Failed`.
fn open_fault(kind: ErrorKind) -> OpenFault
    ensures missing { (result ≡ OpenFault.Missing) ↔ (kind ≡ ErrorKind.NotFound) }
    ensures failed { (result ≡ OpenFault.Missing) ⊎ (result ≡ OpenFault.Failed) }
{
    match kind {
        ErrorKind::NotFound => OpenFault::Missing,
        _ => OpenFault::Failed,
    }
}

impl<R: Files + Drop> SystemDisk<R> {
    /// The files that this runtime opens.
    pub fn new(rt: R) -> SystemDisk<R> {
        SystemDisk {
            rt,
            calls: Calls::new(),
        }
    }
}

impl<R: Files + Drop> Disk for SystemDisk<R> {
    ghost use Rattle.mlt_host.specs.SystemDisk.{system_disk};

    type Opened = Counted<R::File>;

    type Created = Counted<R::File>;

    ghost disk = { λ disk. system_disk disk };

    /// The file of that name. `Missing` where there is none, else `Failed` where it can't be opened.
    fn open(&mut self, name: &str) -> Result<Counted<R::File>, OpenFault> {
        let opened = match File::open(&self.rt, name) {
            Ok(file) => Ok(Counted::new(file)),
            Err(error) => Err(open_fault(error.kind())),
        };
        self.calls.count_open(&opened);
        opened
    }

    /// The size of the file as the system gives it; 0 where it gives none.
    fn expected(&self, file: &Counted<R::File>) -> u64 {
        file.inner().metadata().map_or(0, |facts| facts.len())
    }

    /// The file of that name, emptied or new. `Failed` where it can't be created.
    fn create(&mut self, name: &str) -> Result<Counted<R::File>, Failed> {
        let created = match File::create(&self.rt, name) {
            Ok(file) => Ok(Counted::new(file)),
            Err(_) => Err(Failed),
        };
        self.calls.count_create(&created);
        created
    }
}
