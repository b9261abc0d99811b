//! A host in memory whose ports never fail.

ghost use Rattle.std.specs.Prelude.{◌≡◌, ◌⊎◌, [], List, ℕ, length, None, Some, IfSome, IfNone, IsSomeAnd, IsOk, OnOk, OnErr};

use crate::kept::Kept;
use crate::ports::{PORTS, count_up, index_of};
use crate::{Failed, Host, LoadFault, Port, files};
use std::alloc::{AllocError, Global};
use std::collections::BTreeMap;

/// What the host keeps of a port, and whether it still tells it.
#[derive(Drop)]
struct CalmPort {
    kept: Kept,
    told: bool,
}

/// A host in memory whose ports never fail, and whose loads fail where there is no such file and
/// nowhere else.
///
/// Where memory is wanting to `create` or `append`, the call answers Ok all the same, and the host
/// tells nothing of that port until it is created again.
#[derive(Drop)]
pub struct CalmHost {
    alloc: Global,
    files: BTreeMap<String, Vec<u8>>,
    asked: Vec<String>,
    ports: [CalmPort; PORTS],
    load_faults: u64,
    creates: [u64; PORTS],
}

impl CalmPort {
    ghost use Rattle.std.specs.String.{string_capacity};
    ghost use Rattle.std.specs.Prelude.{◌+◌, ◌<◌, vec_capacity, vec_len};
    ghost use Rattle.mlt_host.specs.Host.{created, appended};
    ghost use Rattle.mlt_host.specs.CalmHost.{told_state};

    /// A port that was never created.
    fn new(alloc: Global) -> CalmPort
        ensures { told_state result ≡ Some (created []) }
    {
        CalmPort {
            kept: Kept::new(alloc),
            told: true,
        }
    }

    /// Creates the port, which is told from then on unless memory was wanting.
    fn create(&mut self, name: &str)
        ensures { (told_state self.new ≡ Some (created name.now)) ⊎ (told_state self.new ≡ None) × (string_capacity self.old.kept.name < length name.now) }
    {
        self.told = self.kept.create(name).is_ok();
    }

    /// Adds the bytes to a port that is told, and tells it no more where memory is wanting.
    fn append(&mut self, bytes: &[u8])
        ensures told { IfSome (told_state self.old) (λ before. (told_state self.new ≡ Some (appended before bytes.now)) ⊎ (told_state self.new ≡ None) × (vec_capacity self.old.kept.bytes < vec_len self.old.kept.bytes + length bytes.now)) }
        ensures untold { IfNone (told_state self.old) (told_state self.new ≡ None) }
    {
        if self.told {
            self.told = self.kept.append(bytes).is_ok();
        }
    }
}

impl CalmHost {
    ghost use Rattle.mlt_host.specs.Files.{GivesFile};
    ghost use Rattle.mlt_host.specs.InMemory.{IsUnused, OnlyFiles};
    ghost use Rattle.mlt_host.specs.CalmHost.{calm_state, calm_file};

    /// A host with no file.
    pub fn new(alloc: Global) -> CalmHost
        ensures { IsUnused (calm_state result) }
    {
        CalmHost {
            alloc,
            files: BTreeMap::new(alloc),
            asked: Vec::new(alloc),
            ports: [
                CalmPort::new(alloc),
                CalmPort::new(alloc),
                CalmPort::new(alloc),
                CalmPort::new(alloc),
            ],
            load_faults: 0,
            creates: [0; PORTS],
        }
    }

    /// Gives the file of that name these bytes; where memory is wanting all stays as before.
    pub fn add_file(&mut self, name: &str, bytes: &[u8]) -> Result<(), AllocError>
        ensures ok { OnOk result (GivesFile name.now bytes.now (calm_file self.old) (calm_file self.new)) }
        ensures err { OnErr result ((other : List ℕ) → calm_file self.new other ≡ calm_file self.old other) }
        ensures rest { OnlyFiles (calm_state self.old) (calm_state self.new) }
    {
        files::give_file(self.alloc, &mut self.files, name, bytes)
    }

    /// The name that the port was created with, where the host still tells the port.
    pub fn name_of(&self, port: Port) -> &str
        ensures { IfSome ((calm_state self.now).port port) (λ told. result.now ≡ told.name) }
    {
        self.ports[index_of(port)].kept.name.as_str()
    }

    /// The bytes of the port since it was created, where the host still tells the port.
    pub fn bytes_of(&self, port: Port) -> &[u8]
        ensures { IfSome ((calm_state self.now).port port) (λ told. result.now ≡ told.bytes) }
    {
        self.ports[index_of(port)].kept.bytes.as_slice()
    }
}

impl Host for CalmHost {
    ghost use Rattle.mlt_host.specs.Host.{created, appended, Counts, OnlyPort, OnlyLoads, Appends, AppendsFront, asked_after, Loads, LeavesCount};
    ghost use Rattle.mlt_host.specs.Kept.{LacksRoom, LacksNameRoom};
    ghost use Rattle.mlt_host.specs.Files.{answer_of, Answers};
    ghost use Rattle.mlt_host.specs.Count.{load_count, create_count};
    ghost use Rattle.mlt_host.specs.CalmHost.{calm_state, calm_file, calm_port};

    ghost state = { calm_state };

    fn load(&mut self, alloc: Global, name: &str, limit: u64) -> Result<Vec<u8>, LoadFault>
        ensures answer { Loads result name.now limit (calm_state self.old) (calm_state self.new) }
        ensures asked { (calm_state self.new).asked ≡ asked_after result name.now (calm_state self.old).asked }
        ensures no_fault { LeavesCount result (calm_state self.old).load_faults (calm_state self.new).load_faults }
        ensures rest { OnlyLoads (calm_state self.old) (calm_state self.new) }

        // A load fails where there is no such file, and nowhere else.
        ensures exact { Answers result (answer_of (calm_file self.old name.now) limit) }
        ensures count { (calm_state self.new).load_faults ≡ load_count result (calm_state self.old).load_faults }
    {
        let loaded = files::load(alloc, &self.files, &mut self.asked, name, limit);
        if let Err(LoadFault::Missing) = loaded {
            self.load_faults = self.load_faults.saturating_add(1);
        }
        loaded
    }

    fn create(&mut self, port: Port, name: &str) -> Result<(), Failed>
        ensures ok { OnOk result (IfSome ((calm_state self.new).port port) (λ now. now ≡ created name.now)) }
        ensures failed { OnErr result ((calm_state self.new).port port ≡ (calm_state self.old).port port) }
        ensures cause { Counts ((calm_state self.old).faults port) ((calm_state self.new).faults port) result }
        ensures no_fault { OnOk result ((calm_state self.new).faults port ≡ (calm_state self.old).faults port) }
        ensures creates { (calm_state self.new).creates port ≡ create_count result ((calm_state self.old).creates port) }
        ensures rest { OnlyPort port (calm_state self.old) (calm_state self.new) }

        // It never fails, and leaves the port untold only where there was no room for the name.
        ensures succeeds { IsOk result }
        ensures told { ((calm_state self.new).port port ≡ Some (created name.now)) ⊎ ((calm_state self.new).port port ≡ None) × LacksNameRoom (calm_port self.old port) (length name.now) }
    {
        self.ports[index_of(port)].create(name);
        count_up(&mut self.creates, port);
        Ok(())
    }

    fn append(&mut self, port: Port, bytes: &[u8]) -> Result<(), Failed>
        ensures ok { OnOk result (Appends port (calm_state self.old) (calm_state self.new) bytes.now) }
        ensures failed { OnErr result (AppendsFront port (calm_state self.old) (calm_state self.new) bytes.now) }
        ensures cause { Counts ((calm_state self.old).faults port) ((calm_state self.new).faults port) result }
        ensures no_fault { OnOk result ((calm_state self.new).faults port ≡ (calm_state self.old).faults port) }
        ensures creates { (calm_state self.new).creates port ≡ (calm_state self.old).creates port }
        ensures rest { OnlyPort port (calm_state self.old) (calm_state self.new) }

        // It never fails, and leaves a told port untold only where there was no room for the piece.
        ensures succeeds { IsOk result }
        ensures told { IfSome ((calm_state self.old).port port) (λ before. ((calm_state self.new).port port ≡ Some (appended before bytes.now)) ⊎ ((calm_state self.new).port port ≡ None) × LacksRoom (calm_port self.old port) (length bytes.now)) }
        ensures untold { IfNone ((calm_state self.old).port port) ((calm_state self.new).port port ≡ None) }
    {
        self.ports[index_of(port)].append(bytes);
        Ok(())
    }
}
