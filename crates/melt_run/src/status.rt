//! How a run ended.

ghost use Rattle.std.specs.Prelude.{◌≡◌};
ghost use Rattle.melt_run.specs.Status.{code_of};
ghost use Rattle.melt_run.specs.Play.{no_tally};

use mlt_base::Port;
use mlt_tree::Refusal;

/// What a run has done: frames whose bytes were all appended, the pictures that they were made of, and
/// the accounts of the output buffers, of which each that was handed out was taken or destroyed.
#[derive(Clone, Copy, Debug, PartialEq, Eq)]
pub struct Tally {
    pub frames: u64,
    pub loads: u64,
    pub handed: u64,
    pub taken: u64,
    pub destroyed: u64,
}

impl Tally {
    /// The accounts of a run that has done nothing.
    pub fn nothing() -> Tally
        ensures { result ≡ no_tally }
    {
        Tally {
            frames: 0,
            loads: 0,
            handed: 0,
            taken: 0,
            destroyed: 0,
        }
    }
}

/// How a run ended.
#[derive(Clone, Copy, Debug, PartialEq, Eq)]
pub enum Status {
    /// Each output has all its bytes, acknowledged.
    Done(Tally),
    /// The words are refused; no output was created.
    Refused(Refusal),
    /// The file that the word at this place names can't be read; no output was created.
    SourceFault(u32),
    /// A port could not be created or written.
    SinkFault(Port, Tally),
    /// Memory was wanting.
    Memory,
}

impl Status {
    /// The program's exit status: 0 done, 1 refused, 2 a file that cannot be read, 3 an output that
    /// cannot be written, 4 out of memory.
    pub fn code(&self) -> u8
        ensures { result ≡ code_of self.now }
    {
        match self {
            Status::Done(_) => 0,
            Status::Refused(_) => 1,
            Status::SourceFault(_) => 2,
            Status::SinkFault(..) => 3,
            Status::Memory => 4,
        }
    }
}
