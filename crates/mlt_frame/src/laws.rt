//! Laws of the definitions: each is the contract of a function that does nothing.

ghost use Rattle.mlt_frame.specs.Started.{StartedFramesRun};

/// A started frame can be rendered: in as many blocks as its tree needs, on any table of sources that fits the tree,
/// its operations find the registers and the sources that they name.
pub fn started_frames_run()
    ensures { StartedFramesRun }
{}
