//! The host of a program: files of a disk, standard output and standard error.
//!
//! To those that use it as a `Host` it tells what its disk tells of its files, and its counts. Its own clauses
//! say what it does by what the disk, its files and the two other streams tell and count: they count their own
//! failures, so it can tell none that was not.

ghost use Rattle.std.specs.Prelude.{◌≡◌, ◌≢◌, ◌⊎◌, IfSome, IsOk, IsErr, OnOk, OnErr, option_copied, codes};
ghost use Rattle.mlt_base.specs.declared.port.Port.{Port};

use crate::disk_file::read_file;
use crate::outlet::Outlets;
use crate::ports::{PORTS, count_up};
use crate::{Counted, Disk, Failed, Host, LoadFault, Port, Sink, outlet};
use std::alloc::Global;
use std::io::Write;

/// The files of a disk, standard output and standard error.
///
/// A `create` leads its port to the file of that name, which it empties, or to standard output where the
/// name is `-`; `Text` goes to standard error whatever its name. Faults are, besides the failures that the
/// disk, its files and the streams count:
///
/// - a `create` of a file that another port has open under the same name,
/// - a `create` of a name of more than 4,096 bytes, of which the system opens no file,
/// - an `append` to a port that was never created, but for `Text`.
#[derive(Drop)]
pub struct DiskHost<D: Disk + Drop, O: Sink + Drop, E: Sink + Drop> {
    disk: D,
    stdout: O,
    stderr: E,
    outlets: Outlets<D::Created>,
    load_faults: u64,
    faults: [u64; PORTS],
    creates: [u64; PORTS],
}

impl<D: Disk + Drop, O: Write + Drop, E: Write + Drop> DiskHost<D, Counted<O>, Counted<E>> {
    ghost use Rattle.mlt_host.specs.Counted.{inner_of};
    ghost use Rattle.mlt_host.specs.Outlet.{first_place};
    ghost use Rattle.mlt_host.specs.DiskHost.{disk_state, disk_place, disk_open, disk_of, stdout_of, stderr_of};

    /// A host over a disk, standard output and standard error. No port is created.
    pub fn new(disk: D, stdout: O, stderr: E) -> DiskHost<D, Counted<O>, Counted<E>>
        ensures load_faults { (disk_state D.disk result).load_faults ≡ 0 }
        ensures faults { (port : Port) → (disk_state D.disk result).faults port ≡ 0 }
        ensures creates { (port : Port) → (disk_state D.disk result).creates port ≡ 0 }
        ensures places { (port : Port) → disk_place result port ≡ first_place port }
        ensures disk { disk_of result ≡ disk }
        ensures stdout { inner_of (stdout_of result) ≡ stdout }
        ensures stderr { inner_of (stderr_of result) ≡ stderr }
    {
        DiskHost {
            disk,
            stdout: Counted::new(stdout),
            stderr: Counted::new(stderr),
            outlets: Outlets::new(),
            load_faults: 0,
            faults: [0; PORTS],
            creates: [0; PORTS],
        }
    }

    /// The file that the port has open; None where it was never created, where it goes to standard output,
    /// and for `Text`.
    pub fn file_of(&self, port: Port) -> Option<&D::Created>
        ensures { option_copied result ≡ disk_open self.now port }
    {
        self.outlets.file_of(port)
    }

    /// The disk.
    pub fn disk(&self) -> &D
        ensures { result.now ≡ disk_of self.now }
    {
        &self.disk
    }

    /// What writes to standard output.
    pub fn stdout(&self) -> &O
        ensures { result.now ≡ inner_of (stdout_of self.now) }
    {
        self.stdout.inner()
    }

    /// What writes to standard error.
    pub fn stderr(&self) -> &E
        ensures { result.now ≡ inner_of (stderr_of self.now) }
    {
        self.stderr.inner()
    }
}

impl<D: Disk + Drop, O: Sink + Drop, E: Sink + Drop> Host for DiskHost<D, O, E> {
    ghost use Rattle.mlt_host.specs.Host.{created, Counts, OnlyPort, OnlyLoads, Appends, AppendsFront, asked_after, Loads, LeavesCount};
    ghost use Rattle.mlt_host.specs.Count.{load_count, port_count, create_count};
    ghost use Rattle.mlt_host.specs.Outlet.{NoPlace, StandardOutput, FileOf, place_after};
    ghost use Rattle.mlt_host.specs.Streams.{WritesTo};
    ghost use Rattle.mlt_host.specs.Disk.{AskedToOpen, AskedToCreate};
    ghost use Rattle.mlt_host.specs.DiskFile.{IsFaultOf};
    ghost use Rattle.mlt_host.specs.DiskHost.{disk_state, disk_place, disk_open, disk_of, stdout_of, stderr_of, sink_of, OnlyDisk, IsTaken};

    ghost state = { λ host. disk_state D.disk host };

    fn load(&mut self, alloc: Global, name: &str, limit: u64) -> Result<Vec<u8>, LoadFault>
        ensures answer { Loads result name.now limit (disk_state D.disk self.old) (disk_state D.disk self.new) }
        ensures asked { (disk_state D.disk self.new).asked ≡ asked_after result name.now (disk_state D.disk self.old).asked }
        ensures no_fault { LeavesCount result (disk_state D.disk self.old).load_faults (disk_state D.disk self.new).load_faults }
        ensures rest { OnlyLoads (disk_state D.disk self.old) (disk_state D.disk self.new) }

        // The disk is asked once to open the file, and Failed is a failure of that or of a read of the file.
        ensures opened { AskedToOpen (D.disk (disk_of self.old)) (D.disk (disk_of self.new)) }
        ensures fault { IsFaultOf result D.Opened.source (D.disk (disk_of self.old)).failures (D.disk (disk_of self.new)).failures }
        ensures count { (disk_state D.disk self.new).load_faults ≡ load_count result (disk_state D.disk self.old).load_faults }
        ensures only { OnlyDisk self.old self.new }
    {
        let loaded = read_file(alloc, &mut self.disk, name, limit);
        if let Err(LoadFault::Missing | LoadFault::Failed) = loaded {
            self.load_faults = self.load_faults.saturating_add(1);
        }
        loaded
    }

    fn create(&mut self, port: Port, name: &str) -> Result<(), Failed>
        ensures ok { OnOk result (IfSome ((disk_state D.disk self.new).port port) (λ now. now ≡ created name.now)) }
        ensures failed { OnErr result ((disk_state D.disk self.new).port port ≡ (disk_state D.disk self.old).port port) }
        ensures cause { Counts ((disk_state D.disk self.old).faults port) ((disk_state D.disk self.new).faults port) result }
        ensures no_fault { OnOk result ((disk_state D.disk self.new).faults port ≡ (disk_state D.disk self.old).faults port) }
        ensures creates { (disk_state D.disk self.new).creates port ≡ create_count result ((disk_state D.disk self.old).creates port) }
        ensures rest { OnlyPort port (disk_state D.disk self.old) (disk_state D.disk self.new) }

        // No two ports have a file of the same name open.
        ensures apart { (other : Port) → other ≢ port → port ≢ Port.Text → name.now ≢ codes "-" → disk_place self.old other ≡ FileOf name.now → IsErr result }
        ensures place { OnOk result (disk_place self.new port ≡ place_after port name.now) }
        ensures unmoved { OnErr result (disk_place self.new port ≡ disk_place self.old port) }
        ensures others { (other : Port) → other ≢ port → disk_place self.new other ≡ disk_place self.old other }

        // The port has the file that one create of the disk gave; it fails only where that fails, and, without
        // a create, where another port has the file and where the name is too long.
        ensures opened { OnOk result (IfSome (disk_open self.new port) (λ file. D.is_created file name.now)) }
        ensures once { port ≢ Port.Text → name.now ≢ codes "-" → OnOk result (AskedToCreate result (D.disk (disk_of self.old)) (D.disk (disk_of self.new))) }
        ensures why { OnErr result (IsTaken self.old port name.now × (disk_of self.new ≡ disk_of self.old) ⊎ AskedToCreate result (D.disk (disk_of self.old)) (D.disk (disk_of self.new))) }
        ensures idle { name.now ≡ codes "-" → disk_of self.new ≡ disk_of self.old }
        ensures idle_text { port ≡ Port.Text → disk_of self.new ≡ disk_of self.old }
        ensures unopened { OnErr result (disk_open self.new port ≡ disk_open self.old port) }
        ensures files { (other : Port) → other ≢ port → disk_open self.new other ≡ disk_open self.old other }
        ensures stdout_stays { stdout_of self.new ≡ stdout_of self.old }
        ensures stderr_stay { stderr_of self.new ≡ stderr_of self.old }

        ensures text { port ≡ Port.Text → IsOk result }
        ensures stdout { name.now ≡ codes "-" → IsOk result }
        ensures count { (disk_state D.disk self.new).faults port ≡ port_count result ((disk_state D.disk self.old).faults port) }
    {
        match outlet::create(&mut self.disk, &mut self.outlets, port, name) {
            Ok(()) => {
                count_up(&mut self.creates, port);
                Ok(())
            }
            Err(Failed) => {
                count_up(&mut self.faults, port);
                Err(Failed)
            }
        }
    }

    fn append(&mut self, port: Port, bytes: &[u8]) -> Result<(), Failed>
        ensures ok { OnOk result (Appends port (disk_state D.disk self.old) (disk_state D.disk self.new) bytes.now) }
        ensures failed { OnErr result (AppendsFront port (disk_state D.disk self.old) (disk_state D.disk self.new) bytes.now) }
        ensures cause { Counts ((disk_state D.disk self.old).faults port) ((disk_state D.disk self.new).faults port) result }
        ensures no_fault { OnOk result ((disk_state D.disk self.new).faults port ≡ (disk_state D.disk self.old).faults port) }
        ensures creates { (disk_state D.disk self.new).creates port ≡ (disk_state D.disk self.old).creates port }
        ensures rest { OnlyPort port (disk_state D.disk self.old) (disk_state D.disk self.new) }

        // What the port goes to holds the bytes behind those from before, once, and was then flushed once; or it
        // holds a front of them, and a write or the flush has failed.
        ensures written { WritesTo result bytes.now (sink_of D.Created.sink O.sink E.sink self.old port) (sink_of D.Created.sink O.sink E.sink self.new port) }
        ensures files { (other : Port) → other ≢ port → disk_open self.new other ≡ disk_open self.old other }
        ensures stdout { disk_place self.old port ≢ StandardOutput → stdout_of self.new ≡ stdout_of self.old }
        ensures stderr { port ≢ Port.Text → stderr_of self.new ≡ stderr_of self.old }
        ensures disk { disk_of self.new ≡ disk_of self.old }

        ensures count { (disk_state D.disk self.new).faults port ≡ port_count result ((disk_state D.disk self.old).faults port) }
        // A port that was never created has nowhere to go.
        ensures nowhere { disk_place self.old port ≡ NoPlace → IsErr result }
        ensures places { (each : Port) → disk_place self.new each ≡ disk_place self.old each }
    {
        let appended = outlet::append(
            &mut self.outlets,
            &mut self.stdout,
            &mut self.stderr,
            port,
            bytes,
        );
        if appended.is_err() {
            count_up(&mut self.faults, port);
        }
        appended
    }
}
