//! The table of options, which the definition of what words say and the code that reads them share.

use crate::group::GroupKind;
use mlt_base::Name;

/// What an option is. No kind means that the option is known and not supported.
#[derive(Clone, Copy, Debug)]
pub struct Row {
    pub name: Name,
    pub kind: Option<GroupKind>,
    pub argument: bool,
    pub properties: bool,
}

/// The row of an option: its name, its kind if it is supported, and what it takes.
macro_rules! option {
    ($name:literal) => {
        Row { name: Name(*$name), kind: None, argument: false, properties: false }
    };
    ($name:literal, $kind:ident) => {
        Row { name: Name(*$name), kind: Some(GroupKind::$kind), argument: false, properties: false }
    };
    ($name:literal, $kind:ident, argument) => {
        Row { name: Name(*$name), kind: Some(GroupKind::$kind), argument: true, properties: false }
    };
    ($name:literal, $kind:ident, properties) => {
        Row { name: Name(*$name), kind: Some(GroupKind::$kind), argument: false, properties: true }
    };
    ($name:literal, $kind:ident, argument, properties) => {
        Row { name: Name(*$name), kind: Some(GroupKind::$kind), argument: true, properties: true }
    };
}

/// Every option, with whether it takes the next word as its argument, and whether properties may
/// stand behind it.
pub const OPTIONS: [Row; 41] = [
    option!(b"-attach      ", Attach, argument, properties),
    option!(b"-attach-cut  ", AttachCut, argument, properties),
    option!(b"-attach-clip ", AttachClip, argument, properties),
    option!(b"-attach-track", AttachTrack, argument, properties),
    option!(b"-filter      ", Filter, argument, properties),
    option!(b"-transition  ", Transition, argument, properties),
    option!(b"-blank       ", Blank, argument),
    option!(b"-group       ", Group, properties),
    option!(b"-join        ", Join, argument),
    option!(b"-mix         ", Mix, argument),
    option!(b"-mixer       ", Mixer, argument, properties),
    option!(b"-remove      ", Remove),
    option!(b"-repeat      ", Repeat, argument),
    option!(b"-split       ", Split, argument),
    option!(b"-swap        ", Swap),
    option!(b"-track       ", Track, properties),
    option!(b"-hide-video  ", HideVideo, properties),
    option!(b"-audio-track ", AudioTrack, properties),
    option!(b"-hide-audio  ", HideAudio, properties),
    option!(b"-video-track ", VideoTrack, properties),
    option!(b"-hide-track  ", HideTrack, properties),
    option!(b"-null-track  ", NullTrack, properties),
    option!(b"-profile     ", Profile, argument),
    option!(b"-consumer    ", Consumer, argument, properties),
    option!(b"-serialise   ", Serialise, argument),
    option!(b"-query       ", Query, argument),
    option!(b"-version     ", Version),
    option!(b"-generate    ", Generate, argument, properties),
    option!(b"-quiet       ", Quiet),
    option!(b"-silent      ", Silent),
    option!(b"-progress    ", Progress),
    option!(b"-verbose     ", Verbose),
    option!(b"-debug       ", Debug),
    option!(b"-getc        ", Getc),
    option!(b"-timings     ", Timings),
    option!(b"-abort       ", Abort),
    option!(b"-jack        "),
    option!(b"-repository  "),
    option!(b"-setlocale   "),
    option!(b"-chain       "),
    option!(b"-link        "),
];
