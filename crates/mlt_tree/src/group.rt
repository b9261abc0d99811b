//! Groups: what a list of words is made up of.

use crate::lists::PropList;
use mlt_base::Text;

/// Which option a group belongs to, or that it is a producer. `table.rt` has the word of each.
#[derive(Clone, Copy, Debug, PartialEq, Eq)]
pub enum GroupKind {
    /// A word of its own, which names something to play.
    Producer,
    Attach,
    AttachCut,
    AttachClip,
    AttachTrack,
    Filter,
    Transition,
    Blank,
    Group,
    Join,
    Mix,
    Mixer,
    Remove,
    Repeat,
    Split,
    Swap,
    Track,
    HideVideo,
    AudioTrack,
    HideAudio,
    VideoTrack,
    HideTrack,
    NullTrack,
    Profile,
    Consumer,
    Serialise,
    Query,
    Version,
    Generate,
    Quiet,
    Silent,
    Progress,
    Verbose,
    Debug,
    Getc,
    Timings,
    Abort,
}

/// A property, the word `name=value`.
///
/// `place` is the word's, counted from 0. `name` is what stands before the word's first `=`, and
/// `value` what stands behind it. Where groups are read from words, no name is empty.
#[derive(Drop)]
pub struct Prop {
    pub place: u32,
    pub name: Text,
    pub value: Text,
}

/// A producer or an option, with the properties behind it.
///
/// `place` is the place of its first word, counted from 0. `arg` is a producer's word or an option's
/// argument, which stands at the next place, and is empty for an option that takes none.
#[derive(Drop)]
pub struct Group {
    pub place: u32,
    pub kind: GroupKind,
    pub arg: Text,
    pub props: PropList,
}
