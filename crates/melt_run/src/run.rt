//! The top call.

ghost use Rattle.std.specs.Prelude.{◌≡◌, ◌≢◌, ◌⊎◌, ◌≤◌, Err, IfSome};
ghost use Rattle.mlt_base.specs.declared.port.Port.{Port};
ghost use Rattle.mlt_base.specs.declared.port.Port.TheVariants.{Text};
ghost use Rattle.mlt_host.specs.Host.{OnlyPort, Rose};
ghost use Rattle.mlt_tree.specs.Loading as read;
ghost use Rattle.mlt_tree.specs.Reading.{written};
ghost use Rattle.mlt_tree.specs.Show.{played as played_run};
ghost use Rattle.mlt_tree.specs.Sources.{Fits};
ghost use Rattle.mlt_tree.specs.Unbuilt.{IsPlayed};
ghost use Rattle.mlt_tree.specs.declared.refusal.Refusal.{Refusal};
ghost use Rattle.mlt_graph.specs.Sealed.{tree};
ghost use Rattle.mlt_graph.specs.Show.{meant};
ghost use Rattle.melt_run.specs.Ends.{Ends, EndsRun};
ghost use Rattle.melt_run.specs.Outcome.{IsWritten, IsCreatedOnce, IsWholeTally, FailsAt, Leaves, Tells, AsksFor, MeetsNoFault, IsDoneOrMemory, IsAccepted, CreatesNothing, Says, CountsRun, KeepsHost};
ghost use Rattle.melt_run.specs.Prepared.{Meant, loads_on};
ghost use Rattle.melt_run.specs.Show.{texts};
ghost use Rattle.melt_run.specs.Status.{line_of, IfDone, IfRefused, IfSourceFault, IfSinkFault, IfMemory};

use crate::gate::Gate;
use crate::line::fault_line;
use crate::play::play_serial;
use crate::prepared::{Prepared, prepare};
use crate::status::Status;
use crate::text::melt_text;
use mlt_base::Port;
use mlt_graph::Show;
use mlt_host::Host;
use mlt_source::SourceTable;
use std::alloc::Global;

/// Appends the run's line to the text that a person reads.
fn tell<H: Host>(host: &mut H, status: &Status)
    ensures line { Tells (line_of status.now) (H.state host.old) (H.state host.new) }
    ensures never_falls { (H.state host.old).faults Text ≤ (H.state host.new).faults Text }
    ensures creates { (H.state host.new).creates Text ≡ (H.state host.old).creates Text }
    ensures rest { OnlyPort Text (H.state host.old) (H.state host.new) }
{
    let line = fault_line(status);
    if !line.as_slice().is_empty() {
        let _ = host.append(Port::Text, line.as_slice());
    }
}

/// Tells how a run ended that has created nothing.
fn told<H: Host>(host: &mut H, status: Status) -> Status
    ensures same { result ≡ status }
    ensures line { Tells (line_of status) (H.state host.old) (H.state host.new) }
    ensures never_falls { (H.state host.old).faults Text ≤ (H.state host.new).faults Text }
    ensures creates { (H.state host.new).creates Text ≡ (H.state host.old).creates Text }
    ensures rest { OnlyPort Text (H.state host.old) (H.state host.new) }
{
    tell(host, &status);
    status
}

/// Plays the show, and tells where it was not played whole.
fn played<H: Host>(alloc: Global, show: Show, table: SourceTable, host: &mut H) -> Status
    requires fits { Fits table (tree show.sealed) }
    requires played { IsPlayed (meant show table) }
    ensures ends { EndsRun (played_run (meant show table)) result (H.state host.old) (H.state host.new) }
    ensures counts { CountsRun result (H.state host.old) (H.state host.new) }
    ensures keeps { KeepsHost (H.state host.old) (H.state host.new) }
    ensures nothing { IfMemory result (CreatesNothing (H.state host.old) (H.state host.new)) }
    ensures asked { (H.state host.new).asked ≡ (H.state host.old).asked }
    ensures never_refused { IfRefused result (λ _. ⊥) }
    ensures never_unread { IfSourceFault result (λ _. ⊥) }
{
    let status = play_serial(alloc, show, table, host);
    tell(host, &status);
    status
}

/// Does what the words mean.
fn run<H: Host>(alloc: Global, words: &[String], host: &mut H) -> Status
    ensures ends { Meant (texts words.now) (H.state host.old) (λ reading. Ends reading result (H.state host.old) (H.state host.new)) }
    ensures counts { CountsRun result (H.state host.old) (H.state host.new) }
    ensures keeps { KeepsHost (H.state host.old) (H.state host.new) }
    ensures untouched { IfRefused result (λ _. CreatesNothing (H.state host.old) (H.state host.new)) }
    ensures unread { IfSourceFault result (λ _. CreatesNothing (H.state host.old) (H.state host.new)) }
    ensures nothing { IfMemory result (CreatesNothing (H.state host.old) (H.state host.new)) }
    ensures asked { IfSome (loads_on (texts words.now) (H.state host.old).files) (λ loads. AsksFor result loads (H.state host.old) (H.state host.new)) }
{
    match prepare(alloc, words, host) {
        Prepared::Play(show, table) => played(alloc, show, table, host),
        Prepared::Text(job) => melt_text(job, host),
        Prepared::Refused(refusal) => told(host, Status::Refused(refusal)),
        Prepared::SourceFault(place) => told(host, Status::SourceFault(place)),
        Prepared::Memory => told(host, Status::Memory),
    }
}

/// Does what the words mean on the host: appends to each output the bytes of the composition at the
/// positions from its first to its last, in order, or prints what is asked; and tells a person in one
/// line where it could not.
///
/// `rt` is the runtime, which calls that wait take; nothing here waits, and the call returns.
/// `Refused` is the refusal of the words, `SourceFault` names the word whose file can't be read, and `Memory`
/// is want of memory; no output is then created.
/// `SinkFault` names the output whose create or append failed, with the accounts up to there.
pub fn melt<R, H: Host, G: Gate>(
    _rt: &R,
    alloc: Global,
    words: &[String],
    host: &mut H,
    _gate: &G,
) -> Status
    // On every host, whatever it tells: no count of faults has risen where all is done, and else the one that the
    // answer names, that of loads or of a port, with a line that says so where the port has one; a port that failed
    // was created where a frame was taken; no port was created twice, and none where nothing was played.
    ensures counts { CountsRun result (H.state host.old) (H.state host.new) }
    ensures keeps { KeepsHost (H.state host.old) (H.state host.new) }
    ensures untouched { IfRefused result (λ _. CreatesNothing (H.state host.old) (H.state host.new)) }
    ensures unread { IfSourceFault result (λ _. CreatesNothing (H.state host.old) (H.state host.new)) }
    ensures nothing { IfMemory result (CreatesNothing (H.state host.old) (H.state host.new)) }

    // Where it is done each output has its name and all of its bytes, acknowledged, and the accounts are exact.
    ensures written { Meant (texts words.now) (H.state host.old) (λ reading. IfDone result (λ _.
        (port : Port) → port ≢ Text → IsWritten (written reading port) ((H.state host.old).port port) ((H.state host.new).port port))) }
    ensures tally { Meant (texts words.now) (H.state host.old) (λ reading. IfDone result (IsWholeTally reading)) }

    // The words' refusal is answered exactly where they have one, up to memory and files that can't be read.
    ensures refused { Meant (texts words.now) (H.state host.old) (λ reading. IfRefused result (λ refusal. reading ≡ Err (read.Refused refusal))) }
    ensures refused_always { Meant (texts words.now) (H.state host.old) (λ reading. (refusal : Refusal) →
        reading ≡ Err (read.Refused refusal) → ¬ Rose (H.state host.old).load_faults (H.state host.new).load_faults →
        (result ≡ Status.Refused refusal) ⊎ (result ≡ Status.Memory)) }

    // A fault comes only where the host failed, and says where.
    ensures fault { Meant (texts words.now) (H.state host.old) (λ reading. IfSinkFault result (λ port tally.
        FailsAt reading port tally (H.state host.old) (H.state host.new))) }
    ensures complete { Meant (texts words.now) (H.state host.old) (λ reading. IsAccepted reading →
        MeetsNoFault (H.state host.old) (H.state host.new) → IsDoneOrMemory result) }

    // Whatever the answer, each output has a front of its bytes under its name, or is as before.
    ensures front { Meant (texts words.now) (H.state host.old) (λ reading. (port : Port) → port ≢ Text →
        Leaves (written reading port) ((H.state host.old).port port) ((H.state host.new).port port)) }
    ensures created { Meant (texts words.now) (H.state host.old) (λ reading. (port : Port) →
        IsCreatedOnce port (written reading port) result ((H.state host.old).creates port) ((H.state host.new).creates port)) }

    // The text has got the answer that was asked for, or the line of the run's end; the files were asked for in
    // order, up to the one that can't be read.
    ensures says { Meant (texts words.now) (H.state host.old) (λ reading. Says reading result (H.state host.old) (H.state host.new)) }
    ensures asked { IfSome (loads_on (texts words.now) (H.state host.old).files) (λ loads. AsksFor result loads (H.state host.old) (H.state host.new)) }
{
    run(alloc, words, host)
}
