//! A reader or a writer of std, with its failures counted.
//!
//! No contract can say that a count rises only where std's read, write or flush has failed: the three
//! methods that count are to be read.

ghost use Rattle.std.specs.Prelude.{◌≡◌, ◌<◌, length, true, IfOk};
ghost use Rattle.std.specs.Io.{ReadsAtMost, WritesAtMost};
ghost use Rattle.std.specs.Io.KnownBytes.{ReadConsumes, WriteAppends};
ghost use Rattle.mlt_host.specs.Counted.{inner_of, read_failures_of, write_failures_of, flushes_of, counted_source, counted_sink};

use crate::{Failed, Sink, Source};
use std::io::{ErrorKind, Read, Write};

/// A reader or a writer of std that counts its failures and its flushes. A count stands at the last number of
/// 64 bits.
///
/// A call that was interrupted is begun again, and is no failure. A write that takes none of some bytes is one.
#[derive(Drop)]
pub struct Counted<W> {
    inner: W,
    read_failures: u64,
    write_failures: u64,
    flushes: u64,
    flushed: bool,
}

impl<W> Counted<W> {
    /// This reader or writer, of which no call has failed so far.
    pub fn new(inner: W) -> Counted<W>
        ensures inner { inner_of result ≡ inner }
        ensures read_failures { read_failures_of result ≡ 0 }
        ensures write_failures { write_failures_of result ≡ 0 }
        ensures flushes { flushes_of result ≡ 0 }
    {
        Counted {
            inner,
            read_failures: 0,
            write_failures: 0,
            flushes: 0,
            flushed: true,
        }
    }

    /// The reader or the writer itself.
    pub fn inner(&self) -> &W
        ensures { result.now ≡ inner_of self.now }
    {
        &self.inner
    }
}

/// One read, begun again where it was interrupted.
fn read_some<R: Read>(from: &mut R, buffer: &mut [u8]) -> Result<usize, Failed>
    ensures bound { ReadsAtMost result buffer.new }
    ensures bytes { ReadConsumes (R.remaining from.old) (R.remaining from.new) result buffer.new }
{
    for _ in 0..u64::MAX {
        match from.read(buffer) {
            Ok(count) => return Ok(count),
            Err(error) if error.kind() == ErrorKind::Interrupted => {}
            Err(_) => return Err(Failed),
        }
    }
    Err(Failed)
}

/// One write, begun again where it was interrupted. `Failed` too where it takes none of some bytes.
fn write_some<W: Write>(to: &mut W, bytes: &[u8]) -> Result<usize, Failed>
    ensures bound { WritesAtMost result bytes.now }
    ensures some { IfOk result (λ count. 0 < length bytes.now → 0 < count) }
    ensures bytes { WriteAppends (W.contents to.old) (W.contents to.new) result bytes.now }
{
    for _ in 0..u64::MAX {
        match to.write(bytes) {
            Ok(0) if !bytes.is_empty() => return Err(Failed),
            Ok(count) => return Ok(count),
            Err(error) if error.kind() == ErrorKind::Interrupted => {}
            Err(_) => return Err(Failed),
        }
    }
    Err(Failed)
}

impl<R: Read> Source for Counted<R> {
    ghost source = { λ counted. counted_source R.remaining counted };

    /// The next bytes; an `Err` of the reader is counted.
    fn read(&mut self, buffer: &mut [u8]) -> Result<usize, Failed> {
        let read = read_some(&mut self.inner, buffer);
        if read.is_err() {
            self.read_failures = self.read_failures.saturating_add(1);
        }
        read
    }
}

impl<W: Write> Sink for Counted<W> {
    ghost sink = { λ counted. counted_sink W.contents counted };

    /// Writes the first of the bytes; an `Err` of the writer is counted.
    fn write(&mut self, bytes: &[u8]) -> Result<usize, Failed> {
        self.flushed = false;
        let written = write_some(&mut self.inner, bytes);
        if written.is_err() {
            self.write_failures = self.write_failures.saturating_add(1);
        }
        written
    }

    /// Flushes the writer, and counts that; an `Err` of the writer is counted too.
    fn flush(&mut self) -> Result<(), Failed> {
        self.flushes = self.flushes.saturating_add(1);
        self.flushed = true;
        if self.inner.flush().is_err() {
            self.write_failures = self.write_failures.saturating_add(1);
            return Err(Failed);
        }
        Ok(())
    }
}
