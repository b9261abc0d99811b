//! Files and streams, read and written whole.

ghost use Rattle.std.specs.Prelude.{◌≡◌, ℕ, ◌+◌, ◌<◌, ◌≤◌, length, take, drop, vec_len, IfOk, IfErr, OnOk, OnErr, ◌⊎◌, ◌^◌};
ghost use Rattle.std.specs.Io.KnownBytes.{Consumes, IsAtEnd};
ghost use Rattle.mlt_host.specs.Count.{port_count};
ghost use Rattle.mlt_host.specs.Streams.{Writes};
ghost use Rattle.mlt_host.specs.Disk.{AskedToOpen};
ghost use Rattle.mlt_host.specs.DiskFile.{IsReadOf, IsLoadOf, IsFaultOf, read_count};

use crate::{Disk, Failed, LoadFault, OpenFault, Sink, Source};
use std::alloc::Global;

/// How many bytes a read asks for at least, where the list has to grow for it and the limit allows.
const CHUNK: usize = 65_536;

/// One read into the bytes behind the first `filled`, which stay.
fn read_behind<F: Source>(file: &mut F, bytes: &mut [u8], filled: usize) -> Result<usize, Failed>
    requires { filled < length bytes.old }
    ensures front { take filled bytes.new ≡ take filled bytes.old }
    ensures fits { IfOk result (λ count. filled + count ≤ length bytes.new) }
    ensures read { IfOk result (λ count. Consumes (F.source file.old).left (F.source file.new).left (take count (drop filled bytes.new))) }
    ensures end { IfOk result (λ count. count ≡ 0 → IsAtEnd (F.source file.new).left) }
    ensures count { (F.source file.new).failures ≡ port_count result (F.source file.old).failures }
{
    file.read(&mut bytes[filled..])
}

/// Makes room for `size` bytes behind the first `filled`, which stay, and reads into it once.
fn read_more<F: Source>(
    file: &mut F,
    bytes: &mut Vec<u8>,
    filled: usize,
    size: usize,
) -> Result<usize, LoadFault>
    requires within { filled ≤ vec_len bytes.old }
    requires some { 0 < size }
    requires fits { filled + size < 2 ^ 64 }
    ensures within { filled ≤ vec_len bytes.new }
    ensures front { take filled bytes.new.items ≡ take filled bytes.old.items }
    ensures fits { IfOk result (λ count. filled + count ≤ vec_len bytes.new) }
    ensures read { IfOk result (λ count. Consumes (F.source file.old).left (F.source file.new).left (take count (drop filled bytes.new.items))) }
    ensures end { IfOk result (λ count. count ≡ 0 → IsAtEnd (F.source file.new).left) }
    ensures fault { IfErr result (λ fault. (fault ≡ LoadFault.Failed) ⊎ (fault ≡ LoadFault.Memory)) }
    ensures count { (F.source file.new).failures ≡ read_count result (F.source file.old).failures }
{
    if bytes.resize(filled + size, 0).is_err() {
        return Err(LoadFault::Memory);
    }
    read_behind(file, bytes.as_mut_slice(), filled).map_err(|_| LoadFault::Failed)
}

/// How many bytes the next read asks for: what the list has room for, else as many as were read
/// already, so that a long file takes few reads and no byte is moved often; one past the limit at most.
fn next_size(capacity: usize, filled: usize, left: u64) -> usize
    ensures some { 0 < result }
    ensures fits { filled < 2 ^ 63 → filled + result < 2 ^ 64 }
    ensures within { result ≤ left + 1 }
{
    let room = capacity.saturating_sub(filled);
    let wanted = if room == 0 { filled.max(CHUNK) } else { room };
    (wanted as u64).min(left.saturating_add(1)) as usize
}

/// Reads a file to its end, which is expected to have so many bytes. `TooLarge(limit)` where it has
/// more than `limit`, of which at most one is read; `Failed` where a read fails.
fn read_whole<F: Source>(
    alloc: Global,
    file: &mut F,
    expected: u64,
    limit: u64,
) -> Result<Vec<u8>, LoadFault>
    ensures answer { IsReadOf result limit (F.source file.old).left }
    ensures count { (F.source file.new).failures ≡ read_count result (F.source file.old).failures }
{
    let capacity = expected.min(limit).saturating_add(1) as usize;
    let Ok(mut bytes) = Vec::with_capacity(alloc, capacity) else {
        return Err(LoadFault::Memory);
    };
    let mut filled = 0usize;
    loop {
        let left = limit - filled as u64;
        let size = next_size(bytes.capacity(), filled, left);
        match read_more(file, &mut bytes, filled, size) {
            Ok(0) => {
                bytes.truncate(filled);
                return Ok(bytes);
            }
            Ok(count) if count as u64 > left => return Err(LoadFault::TooLarge(limit)),
            Ok(count) => filled += count,
            Err(fault) => return Err(fault),
        }
    }
}

/// Opens the file of that name and reads it. `Missing` where there is none, `Failed` where the disk can't open
/// it or a read fails.
pub(crate) fn read_file<D: Disk>(
    alloc: Global,
    disk: &mut D,
    name: &str,
    limit: u64,
) -> Result<Vec<u8>, LoadFault>
    ensures answer { IsLoadOf result name.now limit (D.disk disk.old).files }
    ensures asked { AskedToOpen (D.disk disk.old) (D.disk disk.new) }
    ensures fault { IsFaultOf result D.Opened.source (D.disk disk.old).failures (D.disk disk.new).failures }
{
    match disk.open(name) {
        Ok(mut file) => {
            let expected = disk.expected(&file);
            read_whole(alloc, &mut file, expected, limit)
        }
        Err(OpenFault::Missing) => Err(LoadFault::Missing),
        Err(OpenFault::Failed) => Err(LoadFault::Failed),
        Err(OpenFault::Memory) => Err(LoadFault::Memory),
    }
}

/// Writes all the bytes, and then flushes. `Failed` where a write or the flush fails; a front of the bytes was
/// then written.
pub(crate) fn write_whole<W: Sink>(to: &mut W, bytes: &[u8]) -> Result<(), Failed>
    ensures { Writes result bytes.now (W.sink to.old) (W.sink to.new) }
{
    let mut rest = bytes;
    while !rest.is_empty() {
        match to.write(rest) {
            Ok(count) => rest = &rest[count..],
            Err(Failed) => return Err(Failed),
        }
    }
    to.flush()
}
