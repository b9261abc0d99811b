//! A `DiskHost` over a disk in memory: what it loads and writes, by the very bytes.

ghost use Rattle.std.specs.Prelude.{◌≡◌, ◌≤◌, None, IfOk, IfSome, OnOk, codes};
ghost use Rattle.mlt_base.specs.declared.port.Port.{Port};
ghost use Rattle.mlt_host.specs.Calls.{counting};
ghost use Rattle.mlt_host.specs.Counted.{counted_source};
ghost use Rattle.mlt_host.specs.DiskHost.{disk_open};
ghost use Rattle.mlt_host.specs.DiskInMemory.{written_to};

use crate::calls::Calls;
use crate::disk_in_memory::MemDisk;
use crate::{Counted, Disk, DiskHost, Failed, Host, LoadFault, OpenFault, Port};
use std::alloc::{AllocError, Global};
use std::io;
use std::io::{ErrorKind, Read, Write};
use std::test::Fail;

type MemDiskHost = DiskHost<MemDisk, Counted<Vec<u8>>, Counted<Vec<u8>>>;

/// A host over two files, which writes both streams into lists.
fn host_of_two(alloc: Global) -> Result<MemDiskHost, AllocError> {
    let mut disk = MemDisk::new(alloc);
    disk.add_file("in", b"123")?;
    disk.add_file("on", b"4567")?;
    Ok(DiskHost::new(disk, Vec::new(alloc), Vec::new(alloc)))
}

/// Creates a file and writes two pieces to it.
fn write_two(host: &mut MemDiskHost) -> Result<(), Failed>
    ensures { OnOk result (IfSome (disk_open host.new Port.Video) (λ file. written_to file ≡ codes "abcde")) }
{
    host.create(Port::Video, "out")?;
    host.append(Port::Video, b"abc")?;
    host.append(Port::Video, b"de")
}

#[test]
fn a_disk_in_memory_is_loaded(rt: HostRuntime) -> Result<(), Fail> {
    let mut host = host_of_two(rt.alloc())?;
    assert_eq!(rt;
        host.load(rt.alloc(), "in", 3)
            .ok()
            .ok_or("not loaded")?
            .as_slice(),
        b"123".as_slice()
    );
    assert_eq!(rt;
        host.load(rt.alloc(), "on", 4)
            .ok()
            .ok_or("not loaded")?
            .as_slice(),
        b"4567".as_slice()
    );
    assert_eq!(rt;
        host.load(rt.alloc(), "on", 3).err(),
        Some(LoadFault::TooLarge(3))
    );
    assert_eq!(rt;
        host.load(rt.alloc(), "up", 3).err(),
        Some(LoadFault::Missing)
    );
    Ok(())
}

#[test]
fn a_disk_in_memory_is_written(rt: HostRuntime) -> Result<(), Fail> {
    let mut host = host_of_two(rt.alloc())?;
    assert_eq!(rt; host.append(Port::Video, b"abc"), Err(Failed));
    assert_eq!(rt; write_two(&mut host), Ok(()));
    let file = host.file_of(Port::Video).ok_or("not open")?;
    assert_eq!(rt; file.name(), "out");
    assert_eq!(rt; file.written(), b"abcde".as_slice());
    assert!(rt; host.file_of(Port::Audio).is_none());
    Ok(())
}

#[test]
fn no_two_ports_have_one_file(rt: HostRuntime) -> Result<(), Fail> {
    let mut host = host_of_two(rt.alloc())?;
    let long = [b'a'; 4097];
    let name = str::from_utf8(&long)?;
    assert_eq!(rt; host.create(Port::Video, "out"), Ok(()));
    assert_eq!(rt; host.create(Port::Audio, "out"), Err(Failed));
    assert_eq!(rt; host.create(Port::Audio, name), Err(Failed));
    assert_eq!(rt; host.create(Port::Audio, &name[1..]), Ok(()));
    assert_eq!(rt; host.create(Port::Video, "out"), Ok(()));
    Ok(())
}

#[test]
fn both_streams_get_what_is_theirs(rt: HostRuntime) -> Result<(), Fail> {
    let mut host = host_of_two(rt.alloc())?;
    assert_eq!(rt; host.create(Port::Audio, "-"), Ok(()));
    assert_eq!(rt; host.create(Port::Script, "-"), Ok(()));
    assert_eq!(rt; host.append(Port::Audio, b"ab"), Ok(()));
    assert_eq!(rt; host.append(Port::Script, b"c"), Ok(()));
    assert_eq!(rt; host.append(Port::Text, b"de"), Ok(()));
    assert_eq!(rt; host.stdout().as_slice(), b"abc".as_slice());
    assert_eq!(rt; host.stderr().as_slice(), b"de".as_slice());
    Ok(())
}

/// Where a fragile file breaks: nowhere, where it is opened, behind its last byte, or at a flush.
#[derive(Clone, Copy, PartialEq, Eq)]
enum Breaks {
    Never,
    AtOpen,
    AtEnd,
    AtFlush,
}

/// A file that hands out or takes so many bytes, two at a time, and is interrupted before each time.
#[derive(Drop)]
struct Fragile {
    left: usize,
    breaks: Breaks,
    interrupted: bool,
}

impl Fragile {
    /// How many of these bytes the next call moves, or how it fails.
    fn next(&mut self, wanted: usize) -> io::Result<usize>
        ensures { IfOk result (λ count. count ≤ wanted) }
    {
        self.interrupted = !self.interrupted;
        if self.interrupted {
            return Err(io::Error::from(ErrorKind::Interrupted));
        }
        let count = wanted.min(self.left).min(2);
        if count == 0 && self.breaks == Breaks::AtEnd {
            return Err(io::Error::from(ErrorKind::Other));
        }
        self.left -= count;
        Ok(count)
    }
}

impl Read for Fragile {
    fn read(&mut self, buffer: &mut [u8]) -> io::Result<usize> {
        let count = self.next(buffer.len())?;
        buffer[..count].fill(7);
        Ok(count)
    }
}

impl Write for Fragile {
    fn write(&mut self, bytes: &[u8]) -> io::Result<usize> {
        self.next(bytes.len())
    }

    fn flush(&mut self) -> io::Result<()> {
        if self.breaks == Breaks::AtFlush {
            return Err(io::Error::from(ErrorKind::Other));
        }
        Ok(())
    }
}

/// A disk whose files have five bytes each, and break.
#[derive(Drop)]
struct FragileDisk {
    breaks: Breaks,
    calls: Calls,
}

impl FragileDisk {
    /// A file of the disk, unless it breaks where it is opened.
    fn file(&self) -> Option<Counted<Fragile>>
        ensures { IfSome result (λ file. (counted_source (λ _. None) file).failures ≡ 0) }
    {
        if self.breaks == Breaks::AtOpen {
            return None;
        }
        Some(Counted::new(Fragile {
            left: 5,
            breaks: self.breaks,
            interrupted: false,
        }))
    }
}

impl Disk for FragileDisk {
    type Opened = Counted<Fragile>;

    type Created = Counted<Fragile>;

    ghost disk = { λ disk. counting None disk.calls };

    fn open(&mut self, _name: &str) -> Result<Counted<Fragile>, OpenFault> {
        let opened = self.file().ok_or(OpenFault::Failed);
        self.calls.count_open(&opened);
        opened
    }

    fn expected(&self, _file: &Counted<Fragile>) -> u64 {
        0
    }

    fn create(&mut self, _name: &str) -> Result<Counted<Fragile>, Failed> {
        let created = self.file().ok_or(Failed);
        self.calls.count_create(&created);
        created
    }
}

/// A host over such a disk, whose streams break as its files do.
fn fragile_host(
    alloc: Global,
    breaks: Breaks,
) -> DiskHost<FragileDisk, Counted<Vec<u8>>, Counted<Vec<u8>>> {
    let disk = FragileDisk {
        breaks,
        calls: Calls::new(),
    };
    DiskHost::new(disk, Vec::new(alloc), Vec::new(alloc))
}

#[test]
fn each_fault_of_a_load_is_told(rt: HostRuntime) -> Result<(), Fail> {
    let rows = [
        (Breaks::Never, 5, Ok([7; 5])),
        (Breaks::Never, 4, Err(LoadFault::TooLarge(4))),
        (Breaks::AtOpen, 5, Err(LoadFault::Failed)),
        (Breaks::AtEnd, 5, Err(LoadFault::Failed)),
    ];
    for (breaks, limit, answer) in rows {
        let mut host = fragile_host(rt.alloc(), breaks);
        match host.load(rt.alloc(), "in", limit) {
            Ok(bytes) => {
                let all = answer.ok().ok_or("loaded")?;
                assert_eq!(rt; bytes.as_slice(), all.as_slice());
            }
            Err(fault) => assert_eq!(rt; answer, Err(fault)),
        }
    }
    Ok(())
}

#[test]
fn each_fault_of_a_port_is_told(rt: HostRuntime) -> Result<(), Fail> {
    let rows = [
        (Breaks::Never, 5, Ok(()), Ok(())),
        (Breaks::Never, 6, Ok(()), Err(Failed)),
        (Breaks::AtOpen, 5, Err(Failed), Err(Failed)),
        (Breaks::AtEnd, 6, Ok(()), Err(Failed)),
        (Breaks::AtFlush, 5, Ok(()), Err(Failed)),
    ];
    for (breaks, size, created, appended) in rows {
        let mut host = fragile_host(rt.alloc(), breaks);
        let bytes = [7; 6];
        assert_eq!(rt; host.create(Port::Video, "out"), created);
        assert_eq!(rt; host.append(Port::Video, &bytes[..size]), appended);
    }
    Ok(())
}
