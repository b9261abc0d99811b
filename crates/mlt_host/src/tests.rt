//! What no clause says: that calls succeed where memory is ample, and that files hold what was written.

use crate::{CalmHost, DiskHost, Failed, Host, LoadFault, MemHost, Port, SystemDisk};
use std::alloc::{AllocError, Global};
use std::fs;
use std::test::Fail;

/// A row of the table of failing calls: the entries of the list, which of the four calls answer Ok, and
/// the bytes of the port afterwards.
struct Row {
    failures: &'static [(u64, u64)],
    succeeds: [bool; 4],
    bytes: &'static [u8],
}

const ROWS: [Row; 7] = [
    Row {
        failures: &[],
        succeeds: [true, true, true, true],
        bytes: b"abcde",
    },
    Row {
        failures: &[(0, 0)],
        succeeds: [false, true, true, true],
        bytes: b"abcde",
    },
    Row {
        failures: &[(1, 0)],
        succeeds: [true, false, true, true],
        bytes: b"abcde",
    },
    Row {
        failures: &[(2, 2)],
        succeeds: [true, true, false, true],
        bytes: b"abde",
    },
    Row {
        failures: &[(2, 9)],
        succeeds: [true, true, false, true],
        bytes: b"abcde",
    },
    Row {
        failures: &[(3, 1), (3, 0)],
        succeeds: [true, true, true, false],
        bytes: b"abcd",
    },
    Row {
        failures: &[(4, 0)],
        succeeds: [true, true, true, true],
        bytes: b"abcde",
    },
];

/// A load, a create and two appends, and which of them answered Ok.
fn four_calls(alloc: Global, host: &mut MemHost) -> [bool; 4] {
    [
        host.load(alloc, "in", 3).is_ok(),
        host.create(Port::Video, "out").is_ok(),
        host.append(Port::Video, b"abc").is_ok(),
        host.append(Port::Video, b"de").is_ok(),
    ]
}

fn host_of(alloc: Global, failures: &[(u64, u64)]) -> Result<MemHost, AllocError> {
    let mut host = MemHost::new(alloc);
    host.add_file("in", b"123")?;
    for (call, kept) in failures {
        host.fail_at(*call, *kept)?;
    }
    Ok(host)
}

#[test]
fn calls_fail_where_they_are_told_to(rt: HostRuntime) -> Result<(), Fail> {
    for row in &ROWS {
        let mut host = host_of(rt.alloc(), row.failures)?;
        assert_eq!(rt; four_calls(rt.alloc(), &mut host), row.succeeds);
        assert_eq!(rt; host.bytes_of(Port::Video), row.bytes);
    }
    Ok(())
}

#[test]
fn a_host_in_memory_loads_and_names(rt: HostRuntime) -> Result<(), Fail> {
    let mut host = host_of(rt.alloc(), &[])?;
    host.add_file("in", b"4567")?;
    assert_eq!(rt;
        host.load(rt.alloc(), "in", 2).err(),
        Some(LoadFault::TooLarge(2))
    );
    assert_eq!(rt;
        host.load(rt.alloc(), "on", 2).err(),
        Some(LoadFault::Missing)
    );
    assert_eq!(rt;
        host.load(rt.alloc(), "in", 4)
            .ok()
            .ok_or("not loaded")?
            .as_slice(),
        b"4567".as_slice()
    );
    assert_eq!(rt; host.create(Port::Script, "words"), Ok(()));
    assert_eq!(rt; host.name_of(Port::Script), "words");
    assert_eq!(rt; host.name_of(Port::Video), "");
    Ok(())
}

#[test]
fn a_calm_host_keeps_what_it_is_given(rt: HostRuntime) -> Result<(), Fail> {
    let mut host = CalmHost::new(rt.alloc());
    host.add_file("in", b"123")?;
    assert_eq!(rt;
        host.load(rt.alloc(), "in", 3)
            .ok()
            .ok_or("not loaded")?
            .as_slice(),
        b"123".as_slice()
    );
    assert_eq!(rt; host.create(Port::Audio, "out"), Ok(()));
    assert_eq!(rt; host.append(Port::Audio, b"ab"), Ok(()));
    assert_eq!(rt; host.append(Port::Audio, b"c"), Ok(()));
    assert_eq!(rt; host.name_of(Port::Audio), "out");
    assert_eq!(rt; host.bytes_of(Port::Audio), b"abc".as_slice());
    Ok(())
}

#[test]
fn a_disk_host_reads_back_what_it_wrote(rt: HostRuntime) -> Result<(), Fail> {
    let mut host = DiskHost::new(SystemDisk::new(&rt), rt.stdout(), rt.stderr());
    assert_eq!(rt; host.append(Port::Video, b"abc"), Err(Failed));
    assert_eq!(rt; host.create(Port::Video, "disk_host_test"), Ok(()));
    assert_eq!(rt; host.create(Port::Audio, "disk_host_test"), Err(Failed));
    assert_eq!(rt; host.append(Port::Video, b"abc"), Ok(()));
    assert_eq!(rt; host.append(Port::Video, b"de"), Ok(()));
    assert_eq!(rt;
        host.load(rt.alloc(), "disk_host_test", 5)
            .ok()
            .ok_or("not loaded")?
            .as_slice(),
        b"abcde".as_slice()
    );
    assert_eq!(rt;
        host.load(rt.alloc(), "disk_host_test", 4).err(),
        Some(LoadFault::TooLarge(4))
    );
    assert_eq!(rt;
        host.load(rt.alloc(), "disk_host_none", 4).err(),
        Some(LoadFault::Missing)
    );
    assert_eq!(rt;
        host.load(rt.alloc(), ".", 4).err(),
        Some(LoadFault::Failed)
    );
    assert_eq!(rt; host.create(Port::Audio, "-"), Ok(()));
    assert_eq!(rt; host.create(Port::Script, "-"), Ok(()));
    assert_eq!(rt; host.append(Port::Script, b"to standard output\n"), Ok(()));
    assert_eq!(rt; host.append(Port::Text, b"to standard error\n"), Ok(()));
    fs::remove_file(&rt, "disk_host_test")?;
    Ok(())
}
