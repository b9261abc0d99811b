//! What a `DiskHost` asks of a disk: files that are opened by name.

ghost use Rattle.std.specs.Prelude.{◌≡◌, ℕ, List, ⊤, IfOk};

use crate::{Failed, Sink, Source};

/// Why a file was not opened.
#[derive(Clone, Copy, Debug, PartialEq, Eq)]
pub enum OpenFault {
    /// There is no file of that name.
    Missing,
    /// The file can't be opened.
    Failed,
    /// Memory was wanting.
    Memory,
}

/// Files that are opened by name, to be read or to be written.
///
/// It counts each call of `open` and of `create`, and each that has failed. Where it tells its files, they
/// stay as they were told, so a file that is created is none that is told.
pub trait Disk {
    ghost use Rattle.mlt_host.specs.Disk.{DiskState, open_count, IsOpenOf, AskedToOpen, AskedToCreate};

    /// A file that was opened, to be read.
    type Opened: Source + Drop;

    /// A file that was created, to be written.
    type Created: Sink + Drop;

    /// What it tells of its files, and its counts.
    ghost disk: { Self → DiskState };

    /// A create of that name may give this file; true of every file where that is not told.
    ghost is_created: { Self.Created → List ℕ → Type 0 } = { λ _ _. ⊤ };

    /// The file of that name, to be read from its start.
    ///
    /// `Missing` where there is none, `Memory` where memory is wanting, and `Failed` where it can't be
    /// opened, which is counted.
    fn open(&mut self, name: &str) -> Result<Self::Opened, OpenFault>
        ensures opened { IsOpenOf result Self.Opened.source name.now (disk self.old).files }
        ensures asked { AskedToOpen (disk self.old) (disk self.new) }
        ensures count { (disk self.new).failures ≡ open_count result (disk self.old).failures };

    /// How many bytes the file may have: a hint for how much memory to take, and nothing rests on it.
    fn expected(&self, file: &Self::Opened) -> u64;

    /// A file of that name without bytes, to be written from its start. `Failed` where it can't be created,
    /// which is counted.
    fn create(&mut self, name: &str) -> Result<Self::Created, Failed>
        ensures created { IfOk result (λ file. is_created file name.now) }
        ensures asked { AskedToCreate result (disk self.old) (disk self.new) };
}
