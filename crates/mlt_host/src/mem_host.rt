//! A host in memory, with a list of the calls that are to fail.

ghost use Rattle.std.specs.Prelude.{◌≡◌, ◌++◌, [], ◌∷◌, List, ℕ, length, Some, None, option_map, IfSome, IfNone, IsSomeAnd, IsErr, OnOk, OnErr, slice_get};

use crate::failures::{Failure, failure_at};
use crate::kept::Kept;
use crate::ports::{PORTS, count_up, index_of};
use crate::{Failed, Host, LoadFault, Port, files};
use std::alloc::{AllocError, Global};
use std::collections::BTreeMap;

/// A host in memory that tells everything, and whose calls fail where they are told to.
///
/// Calls of `load`, `create` and `append` are numbered together, from 0. A missing file is a fault
/// of its load. Where memory is wanting to `create` or `append`, that is a fault of the port.
#[derive(Drop)]
pub struct MemHost {
    alloc: Global,
    files: BTreeMap<String, Vec<u8>>,
    asked: Vec<String>,
    ports: [Kept; PORTS],
    calls: u64,
    load_faults: u64,
    faults: [u64; PORTS],
    creates: [u64; PORTS],
    failures: Vec<Failure>,
}

impl MemHost {
    ghost use Rattle.mlt_host.specs.Files.{GivesFile};
    ghost use Rattle.mlt_host.specs.InMemory.{IsUnused, OnlyFiles};
    ghost use Rattle.mlt_host.specs.MemHost.{mem_state, mem_file, calls_of, failures_of};

    /// A host with no file and no failing call.
    pub fn new(alloc: Global) -> MemHost
        ensures unused { IsUnused (mem_state result) }
        ensures calls { calls_of result ≡ 0 }
        ensures failures { failures_of result ≡ [] }
    {
        MemHost {
            alloc,
            files: BTreeMap::new(alloc),
            asked: Vec::new(alloc),
            ports: [
                Kept::new(alloc),
                Kept::new(alloc),
                Kept::new(alloc),
                Kept::new(alloc),
            ],
            calls: 0,
            load_faults: 0,
            faults: [0; PORTS],
            creates: [0; PORTS],
            failures: Vec::new(alloc),
        }
    }

    /// Gives the file of that name these bytes; where memory is wanting all stays as before.
    pub fn add_file(&mut self, name: &str, bytes: &[u8]) -> Result<(), AllocError>
        ensures ok { OnOk result (GivesFile name.now bytes.now (mem_file self.old) (mem_file self.new)) }
        ensures err { OnErr result ((other : List ℕ) → mem_file self.new other ≡ mem_file self.old other) }
        ensures rest { OnlyFiles (mem_state self.old) (mem_state self.new) }
        ensures calls { calls_of self.new ≡ calls_of self.old }
        ensures failures { failures_of self.new ≡ failures_of self.old }
    {
        files::give_file(self.alloc, &mut self.files, name, bytes)
    }

    /// Lets the call of that number fail. Of several entries for one number the first counts. A failing
    /// append keeps the first `kept` bytes of its piece, or all where there are fewer.
    pub fn fail_at(&mut self, call: u64, kept: u64) -> Result<(), AllocError>
        ensures ok { OnOk result (failures_of self.new ≡ failures_of self.old ++ record { call = call; kept = kept } ∷ []) }
        ensures err { OnErr result (failures_of self.new ≡ failures_of self.old) }
        ensures rest { OnlyFiles (mem_state self.old) (mem_state self.new) }
        ensures files { (mem_state self.new).files ≡ (mem_state self.old).files }
        ensures calls { calls_of self.new ≡ calls_of self.old }
    {
        self.failures.push(Failure { call, kept })?;
        Ok(())
    }

    /// The name that the port was created with.
    pub fn name_of(&self, port: Port) -> &str
        ensures { option_map (λ told. told.name) ((mem_state self.now).port port) ≡ Some result.now }
    {
        self.ports[index_of(port)].name.as_str()
    }

    /// The bytes of the port since it was created.
    pub fn bytes_of(&self, port: Port) -> &[u8]
        ensures { option_map (λ told. told.bytes) ((mem_state self.now).port port) ≡ Some result.now }
    {
        self.ports[index_of(port)].bytes.as_slice()
    }
}

impl Host for MemHost {
    ghost use Rattle.mlt_host.specs.Host.{created, appended, Counts, OnlyPort, OnlyLoads, Appends, AppendsFront, asked_after, Loads, LeavesCount};
    ghost use Rattle.mlt_host.specs.Kept.{LacksRoom, LacksNameRoom};
    ghost use Rattle.mlt_host.specs.Files.{Answers};
    ghost use Rattle.mlt_host.specs.Count.{load_count, port_count, create_count};
    ghost use Rattle.mlt_host.specs.MemHost.{mem_state, mem_port, next_failure, load_answer, TakesNumber, KeepsFront};

    ghost state = { mem_state };

    fn load(&mut self, alloc: Global, name: &str, limit: u64) -> Result<Vec<u8>, LoadFault>
        ensures answer { Loads result name.now limit (mem_state self.old) (mem_state self.new) }
        ensures asked { (mem_state self.new).asked ≡ asked_after result name.now (mem_state self.old).asked }
        ensures no_fault { LeavesCount result (mem_state self.old).load_faults (mem_state self.new).load_faults }
        ensures rest { OnlyLoads (mem_state self.old) (mem_state self.new) }

        ensures exact { IsSomeAnd (mem_state self.old).files (λ file. Answers result (load_answer (next_failure self.old) (file name.now) limit)) }
        ensures count { (mem_state self.new).load_faults ≡ load_count result (mem_state self.old).load_faults }
        ensures number { TakesNumber self.old self.new }
    {
        let failure = failure_at(&self.failures, self.calls);
        self.calls = self.calls.saturating_add(1);
        let loaded = match failure {
            None => files::load(alloc, &self.files, &mut self.asked, name, limit),
            Some(_) => match files::ask(self.alloc, &mut self.asked, name) {
                Ok(()) => Err(LoadFault::Failed),
                Err(_) => Err(LoadFault::Memory),
            },
        };
        if let Err(LoadFault::Missing | LoadFault::Failed) = loaded {
            self.load_faults = self.load_faults.saturating_add(1);
        }
        loaded
    }

    fn create(&mut self, port: Port, name: &str) -> Result<(), Failed>
        ensures ok { OnOk result (IfSome ((mem_state self.new).port port) (λ now. now ≡ created name.now)) }
        ensures failed { OnErr result ((mem_state self.new).port port ≡ (mem_state self.old).port port) }
        ensures cause { Counts ((mem_state self.old).faults port) ((mem_state self.new).faults port) result }
        ensures no_fault { OnOk result ((mem_state self.new).faults port ≡ (mem_state self.old).faults port) }
        ensures creates { (mem_state self.new).creates port ≡ create_count result ((mem_state self.old).creates port) }
        ensures rest { OnlyPort port (mem_state self.old) (mem_state self.new) }

        // The calls that are to fail do, and another fails only where there was no room for the name.
        ensures fails { IfSome (next_failure self.old) (λ _. IsErr result) }
        ensures full { OnErr result (IfNone (next_failure self.old) (LacksNameRoom (mem_port self.old port) (length name.now))) }
        ensures told { OnOk result ((mem_state self.new).port port ≡ Some (created name.now)) }
        ensures count { (mem_state self.new).faults port ≡ port_count result ((mem_state self.old).faults port) }
        ensures number { TakesNumber self.old self.new }
    {
        let failure = failure_at(&self.failures, self.calls);
        self.calls = self.calls.saturating_add(1);
        match self.ports[index_of(port)].create_unless(failure, name) {
            Ok(()) => {
                count_up(&mut self.creates, port);
                Ok(())
            }
            Err(Failed) => {
                count_up(&mut self.faults, port);
                Err(Failed)
            }
        }
    }

    fn append(&mut self, port: Port, bytes: &[u8]) -> Result<(), Failed>
        ensures ok { OnOk result (Appends port (mem_state self.old) (mem_state self.new) bytes.now) }
        ensures failed { OnErr result (AppendsFront port (mem_state self.old) (mem_state self.new) bytes.now) }
        ensures cause { Counts ((mem_state self.old).faults port) ((mem_state self.new).faults port) result }
        ensures no_fault { OnOk result ((mem_state self.new).faults port ≡ (mem_state self.old).faults port) }
        ensures creates { (mem_state self.new).creates port ≡ (mem_state self.old).creates port }
        ensures rest { OnlyPort port (mem_state self.old) (mem_state self.new) }

        // The calls that are to fail do, and keep the front of the piece. Another fails only where there
        // was no room for the piece, of which nothing is then kept.
        ensures fails { IfSome (next_failure self.old) (λ kept. IsErr result × KeepsFront self.old self.new port bytes.now kept) }
        ensures full { OnErr result (IfNone (next_failure self.old) (LacksRoom (mem_port self.old port) (length bytes.now))) }
        ensures unkept { OnErr result (IfNone (next_failure self.old) ((mem_state self.new).port port ≡ (mem_state self.old).port port)) }
        ensures told { OnOk result (IsSomeAnd ((mem_state self.old).port port) (λ before. (mem_state self.new).port port ≡ Some (appended before bytes.now))) }
        ensures count { (mem_state self.new).faults port ≡ port_count result ((mem_state self.old).faults port) }
        ensures number { TakesNumber self.old self.new }
    {
        let failure = failure_at(&self.failures, self.calls);
        self.calls = self.calls.saturating_add(1);
        match self.ports[index_of(port)].append_unless(failure, bytes) {
            Ok(()) => Ok(()),
            Err(Failed) => {
                count_up(&mut self.faults, port);
                Err(Failed)
            }
        }
    }
}
