//! Files and streams as the disk host reads and writes them: each counts its own failures.

ghost use Rattle.std.specs.Prelude.{◌≡◌, ◌<◌, length, IfOk, OnOk, true};
ghost use Rattle.std.specs.Io.{ReadsAtMost, WritesAtMost};
ghost use Rattle.std.specs.Io.KnownBytes.{Keeps, ReadConsumes, WriteAppends};
ghost use Rattle.mlt_host.specs.Count.{next, port_count};
ghost use Rattle.mlt_host.specs.Streams.{SourceState, SinkState};

use crate::Failed;

/// A file or a stream that is read, and counts how often a read has failed.
pub trait Source {
    /// What it tells of the bytes that are left, and its count.
    ghost source: { Self → SourceState };

    /// The next bytes, and how many they are; none only at the end, and where there is no room for one.
    ///
    /// `Failed` where they can't be read, which is counted; none is then lost.
    fn read(&mut self, buffer: &mut [u8]) -> Result<usize, Failed>
        ensures bound { ReadsAtMost result buffer.new }
        ensures bytes { ReadConsumes (source self.old).left (source self.new).left result buffer.new }
        ensures count { (source self.new).failures ≡ port_count result (source self.old).failures };
}

/// A file or a stream that is written, and counts how often a write or a flush has failed, and how often it
/// was flushed.
pub trait Sink {
    /// What it tells of the bytes that it holds, and its counts.
    ghost sink: { Self → SinkState };

    /// Writes the first of these bytes behind those from before, and says how many: at least one, where there
    /// is one.
    ///
    /// `Failed` where none can be written, which is counted; it then holds what it held.
    fn write(&mut self, bytes: &[u8]) -> Result<usize, Failed>
        ensures bound { WritesAtMost result bytes.now }
        ensures some { IfOk result (λ count. 0 < length bytes.now → 0 < count) }
        ensures bytes { WriteAppends (sink self.old).contents (sink self.new).contents result bytes.now }
        ensures count { (sink self.new).failures ≡ port_count result (sink self.old).failures }
        ensures flushes { (sink self.new).flushes ≡ (sink self.old).flushes };

    /// Hands on what was written to wherever it goes. `Failed` where it can't, which is counted.
    fn flush(&mut self) -> Result<(), Failed>
        ensures bytes { Keeps (sink self.old).contents (sink self.new).contents }
        ensures count { (sink self.new).failures ≡ port_count result (sink self.old).failures }
        ensures flushes { (sink self.new).flushes ≡ next (sink self.old).flushes }
        ensures flushed { OnOk result ((sink self.new).flushed ≡ true) };
}
