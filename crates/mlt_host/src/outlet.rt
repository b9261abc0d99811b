//! Where the ports of a program go: nowhere, to standard output or to a file.

ghost use Rattle.std.specs.Prelude.{◌≡◌, ◌≢◌, ◌↔◌, ◌⊎◌, ◌<◌, length, IsTrue, IsOk, IsErr, IfSome, OnOk, OnErr, option_copied, codes};
ghost use Rattle.mlt_base.specs.declared.port.Port.{Port};
ghost use Rattle.mlt_host.specs.Outlet.{NoPlace, StandardOutput, FileOf, outlet_place, outlet_file, outlet_sink, place_at, file_at, sink_at, named_place, first_place, place_after};
ghost use Rattle.mlt_host.specs.Streams.{WritesTo};
ghost use Rattle.mlt_host.specs.Disk.{AskedToCreate};

use crate::disk_file::write_whole;
use crate::file_name::FileName;
use crate::{Disk, Failed, Port, Sink};

/// The name of standard output.
const OUTPUT: &str = "-";

/// Where the bytes of a port go.
#[derive(Drop)]
pub(crate) enum Target<F> {
    /// The port was never created.
    Nowhere,
    /// Standard output.
    Output,
    /// A file that is open.
    Open(F),
}

/// Where a port goes, and the name of its file where it goes to one.
#[derive(Drop)]
pub(crate) struct Outlet<F> {
    target: Target<F>,
    name: FileName,
}

/// Where each port goes but `Text`.
#[derive(Drop)]
pub(crate) struct Outlets<F> {
    video: Outlet<F>,
    audio: Outlet<F>,
    script: Outlet<F>,
}

impl<F> Outlet<F> {
    /// A port that was never created.
    fn new() -> Outlet<F>
        ensures { outlet_place result ≡ NoPlace }
    {
        Outlet {
            target: Target::Nowhere,
            name: FileName::empty(),
        }
    }

    /// Whether a file of this name is open here.
    fn has_open(&self, name: &str) -> bool
        ensures { IsTrue result ↔ (outlet_place self.now ≡ FileOf name.now) }
    {
        match self.target {
            Target::Open(_) => self.name.is(name),
            Target::Nowhere | Target::Output => false,
        }
    }

    /// The file that is open here, where one is.
    fn file(&self) -> Option<&F>
        ensures { option_copied result ≡ outlet_file self.now }
    {
        match &self.target {
            Target::Open(file) => Some(file),
            Target::Nowhere | Target::Output => None,
        }
    }
}

impl<F> Outlets<F> {
    /// Three ports that were never created.
    pub(crate) fn new() -> Outlets<F>
        ensures { (port : Port) → place_at result port ≡ first_place port }
    {
        Outlets {
            video: Outlet::new(),
            audio: Outlet::new(),
            script: Outlet::new(),
        }
    }

    /// The file that the port has open, where it has one.
    pub(crate) fn file_of(&self, port: Port) -> Option<&F>
        ensures { option_copied result ≡ file_at self.now port }
    {
        match port {
            Port::Video => self.video.file(),
            Port::Audio => self.audio.file(),
            Port::Script => self.script.file(),
            Port::Text => None,
        }
    }
}

/// Leads the outlet to standard output, or to the file of that name, which it empties. `Failed` where
/// another has that file open, where the name is too long, and where the disk refuses it; the outlet is
/// then as before.
fn lead<D: Disk>(
    disk: &mut D,
    outlet: &mut Outlet<D::Created>,
    second: &Outlet<D::Created>,
    third: &Outlet<D::Created>,
    name: &str,
) -> Result<(), Failed>
    ensures ok { OnOk result (outlet_place outlet.new ≡ named_place name.now) }
    ensures err { OnErr result (outlet.new ≡ outlet.old) }
    ensures second { outlet_place second.now ≡ FileOf name.now → name.now ≢ codes "-" → IsErr result }
    ensures third { outlet_place third.now ≡ FileOf name.now → name.now ≢ codes "-" → IsErr result }
    ensures opened { OnOk result (IfSome (outlet_file outlet.new) (λ file. D.is_created file name.now)) }
    ensures once { name.now ≢ codes "-" → OnOk result (AskedToCreate result (D.disk disk.old) (D.disk disk.new)) }
    ensures why { OnErr result (((outlet_place second.now ≡ FileOf name.now) ⊎ (outlet_place third.now ≡ FileOf name.now) ⊎ (4096 < length name.now)) × (disk.new ≡ disk.old) ⊎ AskedToCreate result (D.disk disk.old) (D.disk disk.new)) }
    ensures stdout { name.now ≡ codes "-" → IsOk result }
    ensures idle { name.now ≡ codes "-" → disk.new ≡ disk.old }
{
    if name == OUTPUT {
        outlet.target = Target::Output;
        return Ok(());
    }
    if second.has_open(name) || third.has_open(name) {
        return Err(Failed);
    }
    let Some(file_name) = FileName::of(name) else {
        return Err(Failed);
    };
    let file = disk.create(name)?;
    outlet.name = file_name;
    outlet.target = Target::Open(file);
    Ok(())
}

/// Creates the port: it goes to standard output where the name is `-`, and else to the file of that
/// name, which is emptied. `Failed` where another port has that file open, so that no two write over
/// each other, where the name is too long, and where the disk refuses it; the port then goes where it
/// went before.
pub(crate) fn create<D: Disk>(
    disk: &mut D,
    outlets: &mut Outlets<D::Created>,
    port: Port,
    name: &str,
) -> Result<(), Failed>
    ensures text { port ≡ Port.Text → IsOk result }
    ensures stdout { name.now ≡ codes "-" → IsOk result }
    ensures ok { OnOk result (place_at outlets.new port ≡ place_after port name.now) }
    ensures err { OnErr result (outlets.new ≡ outlets.old) }
    ensures others { (other : Port) → other ≢ port → place_at outlets.new other ≡ place_at outlets.old other }
    ensures files { (other : Port) → other ≢ port → file_at outlets.new other ≡ file_at outlets.old other }
    ensures apart { (other : Port) → other ≢ port → port ≢ Port.Text → name.now ≢ codes "-" → place_at outlets.old other ≡ FileOf name.now → IsErr result }
    ensures opened { OnOk result (IfSome (file_at outlets.new port) (λ file. D.is_created file name.now)) }
    ensures once { port ≢ Port.Text → name.now ≢ codes "-" → OnOk result (AskedToCreate result (D.disk disk.old) (D.disk disk.new)) }
    ensures why { OnErr result ((((other : Port) × (other ≢ port) × (place_at outlets.old other ≡ FileOf name.now)) ⊎ (4096 < length name.now)) × (disk.new ≡ disk.old) ⊎ AskedToCreate result (D.disk disk.old) (D.disk disk.new)) }
    ensures idle { name.now ≡ codes "-" → disk.new ≡ disk.old }
    ensures idle_text { port ≡ Port.Text → disk.new ≡ disk.old }
{
    match port {
        Port::Video => lead(
            disk,
            &mut outlets.video,
            &outlets.audio,
            &outlets.script,
            name,
        ),
        Port::Audio => lead(
            disk,
            &mut outlets.audio,
            &outlets.video,
            &outlets.script,
            name,
        ),
        Port::Script => lead(
            disk,
            &mut outlets.script,
            &outlets.video,
            &outlets.audio,
            name,
        ),
        Port::Text => Ok(()),
    }
}

/// Writes all the bytes to where the outlet goes, and flushes that. `Failed` where that is nowhere, and where a
/// write or the flush fails; a front of the bytes was then written.
fn write_to<F: Sink, O: Sink>(
    outlet: &mut Outlet<F>,
    stdout: &mut O,
    bytes: &[u8],
) -> Result<(), Failed>
    ensures place { outlet_place outlet.new ≡ outlet_place outlet.old }
    ensures written { WritesTo result bytes.now (outlet_sink F.sink (O.sink stdout.old) outlet.old) (outlet_sink F.sink (O.sink stdout.new) outlet.new) }
    ensures stdout { outlet_place outlet.old ≢ StandardOutput → stdout.new ≡ stdout.old }
{
    match &mut outlet.target {
        Target::Nowhere => Err(Failed),
        Target::Output => write_whole(stdout, bytes),
        Target::Open(file) => write_whole(file, bytes),
    }
}

/// Writes all the bytes to where the port goes, and flushes that; `Text` goes to standard error. `Failed` where
/// the port was never created, and where a write or the flush fails; a front of the bytes was then written.
pub(crate) fn append<F: Sink, O: Sink, E: Sink>(
    outlets: &mut Outlets<F>,
    stdout: &mut O,
    stderr: &mut E,
    port: Port,
    bytes: &[u8],
) -> Result<(), Failed>
    ensures nowhere { place_at outlets.old port ≡ NoPlace → IsErr result }
    ensures places { (each : Port) → place_at outlets.new each ≡ place_at outlets.old each }
    ensures written { WritesTo result bytes.now (sink_at F.sink (O.sink stdout.old) (E.sink stderr.old) outlets.old port) (sink_at F.sink (O.sink stdout.new) (E.sink stderr.new) outlets.new port) }
    ensures files { (other : Port) → other ≢ port → file_at outlets.new other ≡ file_at outlets.old other }
    ensures stdout { place_at outlets.old port ≢ StandardOutput → stdout.new ≡ stdout.old }
    ensures stderr { port ≢ Port.Text → stderr.new ≡ stderr.old }
{
    match port {
        Port::Video => write_to(&mut outlets.video, stdout, bytes),
        Port::Audio => write_to(&mut outlets.audio, stdout, bytes),
        Port::Script => write_to(&mut outlets.script, stdout, bytes),
        Port::Text => write_whole(stderr, bytes),
    }
}
