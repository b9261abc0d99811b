//! What a run needs of the outside: files to load, ports to write, and a count of what went wrong.

ghost use Rattle.std.specs.Prelude.{◌≡◌, IfSome, OnOk, OnErr};

use crate::Port;
use std::alloc::Global;

/// Why a file was not loaded.
#[derive(Clone, Copy, Debug, PartialEq, Eq)]
pub enum LoadFault {
    /// There is no file of that name.
    Missing,
    /// The file could not be read.
    Failed,
    /// The file has more bytes than this limit.
    TooLarge(u64),
    /// Memory was wanting.
    Memory,
}

/// A port that could not be created or written.
#[derive(Clone, Copy, Debug, PartialEq, Eq)]
pub struct Failed;

/// The outside of a run: files by name, one output for each port, and how often each was created and has failed.
///
/// A port that was never created has the empty name and its bytes from the start.
/// Each call leaves all that it does not speak of.
pub trait Host {
    ghost use Rattle.mlt_host.specs.Host.{HostState, created, Counts, OnlyPort, OnlyLoads, Appends, AppendsFront, asked_after, Loads, LeavesCount};
    ghost use Rattle.mlt_host.specs.Count.{create_count};

    /// What the host tells, and its counts of faults and of creates.
    ghost state: { Self → HostState };

    /// All the bytes of the file of that name, at most `limit` of them.
    ///
    /// Each answer but `Memory` counts the name among those asked. `Missing` where there is no such
    /// file and `Failed` where it can't be read, each only where the count of loads rose;
    /// `TooLarge(limit)` where it was read without a fault and has more bytes than `limit`.
    fn load(&mut self, alloc: Global, name: &str, limit: u64) -> Result<Vec<u8>, LoadFault>
        ensures answer { Loads result name.now limit (state self.old) (state self.new) }
        ensures asked { (state self.new).asked ≡ asked_after result name.now (state self.old).asked }
        ensures no_fault { LeavesCount result (state self.old).load_faults (state self.new).load_faults }
        ensures rest { OnlyLoads (state self.old) (state self.new) };

    /// Empties the port, which has this name from then on.
    ///
    /// `Failed` only where the port's count of faults rose; the port is then as before. Each `Ok` is counted,
    /// and no other answer is.
    fn create(&mut self, port: Port, name: &str) -> Result<(), Failed>
        ensures ok { OnOk result (IfSome ((state self.new).port port) (λ now. now ≡ created name.now)) }
        ensures failed { OnErr result ((state self.new).port port ≡ (state self.old).port port) }
        ensures cause { Counts ((state self.old).faults port) ((state self.new).faults port) result }
        ensures no_fault { OnOk result ((state self.new).faults port ≡ (state self.old).faults port) }
        ensures creates { (state self.new).creates port ≡ create_count result ((state self.old).creates port) }
        ensures rest { OnlyPort port (state self.old) (state self.new) };

    /// Adds the bytes to the port.
    ///
    /// `Failed` only where the port's count of faults rose; a front of the bytes was then added.
    fn append(&mut self, port: Port, bytes: &[u8]) -> Result<(), Failed>
        ensures ok { OnOk result (Appends port (state self.old) (state self.new) bytes.now) }
        ensures failed { OnErr result (AppendsFront port (state self.old) (state self.new) bytes.now) }
        ensures cause { Counts ((state self.old).faults port) ((state self.new).faults port) result }
        ensures no_fault { OnOk result ((state self.new).faults port ≡ (state self.old).faults port) }
        ensures creates { (state self.new).creates port ≡ (state self.old).creates port }
        ensures rest { OnlyPort port (state self.old) (state self.new) };
}
