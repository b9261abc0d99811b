//! A disk in memory, for tests of what runs over a `DiskHost`.

ghost use Rattle.std.specs.Prelude.{◌≡◌, [], ℕ, List, None, OnOk, OnErr, IfOk};
ghost use Rattle.mlt_host.specs.Counted.{read_failures_of};
ghost use Rattle.mlt_host.specs.DiskInMemory.{left_in};

use crate::calls::Calls;
use crate::{Counted, Disk, Failed, OpenFault, Sink, files};
use std::alloc::{AllocError, Global};
use std::collections::BTreeMap;
use std::io::Cursor;

/// Files by name, which are lists of bytes.
///
/// A file that is created stands apart from those: what is written to it stays there, and a later open of the
/// name gives the bytes that the disk was given under it.
#[derive(Drop)]
pub struct MemDisk {
    alloc: Global,
    files: BTreeMap<String, Vec<u8>>,
    calls: Calls,
}

/// A file that was created on such a disk: its name, and what was written to it.
#[derive(Drop)]
pub struct MemFile {
    name: String,
    written: Counted<Vec<u8>>,
}

/// These bytes as a file that is opened, with all of them left.
fn opened(alloc: Global, bytes: &[u8]) -> Result<Counted<Cursor<Vec<u8>>>, AllocError>
    ensures left { IfOk result (λ file. left_in file ≡ bytes.now) }
    ensures unread { IfOk result (λ file. read_failures_of file ≡ 0) }
{
    Ok(Counted::new(Cursor::new(bytes.to_vec(alloc)?)))
}

impl MemFile {
    ghost use Rattle.mlt_host.specs.DiskInMemory.{name_of, written_to};

    /// A file of that name, to which nothing was written.
    fn new(alloc: Global, name: &str) -> Result<MemFile, AllocError>
        ensures name { IfOk result (λ file. name_of file ≡ name.now) }
        ensures written { IfOk result (λ file. written_to file ≡ []) }
    {
        Ok(MemFile {
            name: String::from_str(alloc, name)?,
            written: Counted::new(Vec::new(alloc)),
        })
    }

    /// The name that the file was created with.
    pub fn name(&self) -> &str
        ensures { result.now ≡ name_of self.now }
    {
        self.name.as_str()
    }

    /// The bytes that were written to the file.
    pub fn written(&self) -> &[u8]
        ensures { result.now ≡ written_to self.now }
    {
        self.written.inner().as_slice()
    }
}

impl Sink for MemFile {
    ghost use Rattle.mlt_host.specs.DiskInMemory.{mem_sink};

    ghost sink = { mem_sink };

    /// Keeps all the bytes; it fails where memory is wanting, and keeps none.
    fn write(&mut self, bytes: &[u8]) -> Result<usize, Failed> {
        self.written.write(bytes)
    }

    /// Nothing is left to be done.
    fn flush(&mut self) -> Result<(), Failed> {
        self.written.flush()
    }
}

impl MemDisk {
    ghost use Rattle.mlt_host.specs.Files.{GivesFile};
    ghost use Rattle.mlt_host.specs.DiskInMemory.{file_on, KeepsFiles};

    /// A disk with no file.
    pub fn new(alloc: Global) -> MemDisk
        ensures { (name : List ℕ) → file_on result name ≡ None }
    {
        MemDisk {
            alloc,
            files: BTreeMap::new(alloc),
            calls: Calls::new(),
        }
    }

    /// Gives the file of that name these bytes; where memory is wanting all stays as before.
    pub fn add_file(&mut self, name: &str, bytes: &[u8]) -> Result<(), AllocError>
        ensures ok { OnOk result (GivesFile name.now bytes.now (file_on self.old) (file_on self.new)) }
        ensures err { OnErr result (KeepsFiles self.old self.new) }
    {
        files::give_file(self.alloc, &mut self.files, name, bytes)
    }
}

impl Disk for MemDisk {
    ghost use Rattle.mlt_host.specs.DiskInMemory.{mem_disk, IsCreated};

    type Opened = Counted<Cursor<Vec<u8>>>;

    type Created = MemFile;

    ghost disk = { mem_disk };

    ghost is_created = { IsCreated };

    /// The file of that name. `Missing` where there is none, `Memory` where memory is wanting.
    fn open(&mut self, name: &str) -> Result<Counted<Cursor<Vec<u8>>>, OpenFault> {
        let answer = match self.files.get(name) {
            None => Err(OpenFault::Missing),
            Some(bytes) => opened(self.alloc, bytes).map_err(|_| OpenFault::Memory),
        };
        self.calls.count_open(&answer);
        answer
    }

    /// How many bytes are left and were read.
    fn expected(&self, file: &Counted<Cursor<Vec<u8>>>) -> u64 {
        file.inner().get_ref().len() as u64
    }

    /// A file of that name without bytes. `Failed` where memory is wanting.
    fn create(&mut self, name: &str) -> Result<MemFile, Failed> {
        let created = MemFile::new(self.alloc, name).map_err(|_| Failed);
        self.calls.count_create(&created);
        created
    }
}
