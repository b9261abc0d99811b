//! Answers questions on the text that a person reads.

ghost use Rattle.std.specs.Prelude.{◌≡◌, ◌≤◌};
ghost use Rattle.mlt_base.specs.declared.port.Port.TheVariants.{Text};
ghost use Rattle.mlt_host.specs.Host.{OnlyPort};
ghost use Rattle.mlt_tree.specs.Reading as meaning;
ghost use Rattle.melt_run.specs.Prints.{Prints};
ghost use Rattle.melt_run.specs.Text.{job_view};

use crate::status::{Status, Tally};
use mlt_base::Port;
use mlt_host::Host;
use mlt_tree::QueryKind;

/// A question that is answered on the text.
#[derive(Clone, Copy, Debug, PartialEq, Eq)]
pub enum TextJob {
    /// The name and the version of the program.
    Version,
    /// A list of names.
    Query(QueryKind),
}

/// The names that are asked for, each with a line end.
fn names(asked: QueryKind) -> &'static str
    ensures { result.now ≡ meaning.query_text asked }
{
    match asked {
        QueryKind::Producers => "colour\ncolor\nppm\npcm\nmelt_file\n",
        QueryKind::Filters => {
            "brightness\ngreyscale\ninvert\nmirror\ncrop\nthreshold\nsepia\nobscure\nopacity\nswapchannels\nvolume\nmono\nchannelcopy\nchannelswap\nsilence\n"
        }
        QueryKind::Transitions => "luma\ncomposite\nmatte\nmix\nsum\n",
        QueryKind::Consumers => "raw\n",
        QueryKind::Profiles => "dv_pal\ndv_ntsc\natsc_720p_25\natsc_1080p_25\n",
    }
}

/// The text that answers a job.
fn answer(job: TextJob) -> &'static str
    ensures { result.now ≡ meaning.job_text (job_view job) }
{
    match job {
        TextJob::Version => "melt 1.0.0\n",
        TextJob::Query(asked) => names(asked),
    }
}

/// Appends the answer of the job to the text that a person reads.
///
/// It answers `Done` where the append was Ok, else `SinkFault`, and nothing else; both with accounts of
/// nothing. It takes no memory, and waits for nobody.
pub fn melt_text<H: Host>(job: TextJob, host: &mut H) -> Status
    ensures prints { Prints (meaning.job_text (job_view job)) result (H.state host.old) (H.state host.new) }
    ensures never_falls { (H.state host.old).faults Text ≤ (H.state host.new).faults Text }
    ensures creates { (H.state host.new).creates Text ≡ (H.state host.old).creates Text }
    ensures rest { OnlyPort Text (H.state host.old) (H.state host.new) }
{
    match host.append(Port::Text, answer(job).as_bytes()) {
        Ok(()) => Status::Done(Tally::nothing()),
        Err(_) => Status::SinkFault(Port::Text, Tally::nothing()),
    }
}
