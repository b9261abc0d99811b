//! The tables of services and of their properties, which the definitions and the code that reads words share.

use crate::row::{
    Animated, Area, Choice, Count, Distance, FileName, Letters, Moment, Number, Property, Share,
};
use mlt_base::Name;
use mlt_base::limits::MOST_FRAMES;

/// The first frame of a clip, a filter, a merge or a run.
pub const IN: Moment = Moment {
    name: Name(*b"in           "),
};
/// The last frame.
pub const OUT: Moment = Moment {
    name: Name(*b"out          "),
};
/// How many frames a source has.
pub const LENGTH: Number = Number {
    name: Name(*b"length       "),
    low: 1,
    high: MOST_FRAMES,
};

/// How pixels are written.
pub const PIX: Choice = Choice {
    name: Name(*b"pix          "),
    first: Name(*b"rgb          "),
    second: Name(*b"rgba         "),
};
/// Threads that render, the sign aside.
pub const REAL_TIME: Distance = Distance {
    name: Name(*b"real_time    "),
    high: 16,
};
/// Frames that may be under way.
pub const BUFFER: Count = Count {
    name: Name(*b"buffer       "),
    low: 1,
    high: 64,
    default: 25,
};
/// Bands that a picture is cut into.
pub const SLICES: Count = Count {
    name: Name(*b"slices       "),
    low: 1,
    high: 16,
    default: 1,
};
/// Pictures that are kept.
pub const CACHE: Count = Count {
    name: Name(*b"cache        "),
    low: 0,
    high: 64,
    default: 4,
};

/// What a producer makes its source from.
#[derive(Clone, Copy, Debug, PartialEq, Eq)]
pub enum Producer {
    Colour,
    Picture,
    Sound,
    Melt,
}

/// A producer by its id, with the ending of the files that name it, where it has one.
#[derive(Clone, Copy, Debug)]
pub struct ProducerRow {
    pub name: Name,
    pub kind: Producer,
    pub ending: Option<Name>,
}

/// The producers, in the order in which they are listed.
pub const PRODUCERS: [ProducerRow; 5] = [
    ProducerRow {
        name: Name(*b"colour       "),
        kind: Producer::Colour,
        ending: None,
    },
    ProducerRow {
        name: Name(*b"color        "),
        kind: Producer::Colour,
        ending: None,
    },
    ProducerRow {
        name: Name(*b"ppm          "),
        kind: Producer::Picture,
        ending: Some(Name(*b".ppm         ")),
    },
    ProducerRow {
        name: Name(*b"pcm          "),
        kind: Producer::Sound,
        ending: Some(Name(*b".pcm         ")),
    },
    ProducerRow {
        name: Name(*b"melt_file    "),
        kind: Producer::Melt,
        ending: Some(Name(*b".melt        ")),
    },
];

/// The consumer of frames as they are.
pub const RAW: Name = Name(*b"raw          ");

/// The consumers, in the order in which they are listed.
pub const CONSUMERS: [Name; 1] = [RAW];

/// How much brightness, opacity or loudness is multiplied by.
pub const LEVEL: Animated = Animated {
    name: Name(*b"level        "),
    default: Name(*b"1            "),
};
/// Which sides are exchanged.
pub const MIRROR: Choice = Choice {
    name: Name(*b"mirror       "),
    first: Name(*b"horizontal   "),
    second: Name(*b"vertical     "),
};
/// How many pixels are cleared at the left.
pub const LEFT: Count = Count {
    name: Name(*b"left         "),
    low: 0,
    high: 4096,
    default: 0,
};
/// How many pixels are cleared at the right.
pub const RIGHT: Count = Count {
    name: Name(*b"right        "),
    low: 0,
    high: 4096,
    default: 0,
};
/// How many pixels are cleared at the top.
pub const TOP: Count = Count {
    name: Name(*b"top          "),
    low: 0,
    high: 4096,
    default: 0,
};
/// How many pixels are cleared at the bottom.
pub const BOTTOM: Count = Count {
    name: Name(*b"bottom       "),
    low: 0,
    high: 4096,
    default: 0,
};
/// How light white is at least.
pub const MIDPOINT: Count = Count {
    name: Name(*b"midpoint     "),
    low: 0,
    high: 255,
    default: 128,
};
/// How wide a square is, in pixels.
pub const SIZE: Count = Count {
    name: Name(*b"size         "),
    low: 1,
    high: 4096,
    default: 8,
};
/// The channels that the new red, green, blue and alpha are taken from.
pub const ORDER: Letters = Letters {
    name: Name(*b"order        "),
    default: Name(*b"bgra         "),
};

/// What a filter does.
#[derive(Clone, Copy, Debug, PartialEq, Eq)]
pub enum FilterKind {
    Brightness,
    Greyscale,
    Invert,
    Mirror,
    Crop,
    Threshold,
    Sepia,
    Obscure,
    Opacity,
    SwapChannels,
    Volume,
    Mono,
    ChannelCopy,
    ChannelSwap,
    Silence,
}

/// A filter by its id, with the name of its first property, where it has one.
#[derive(Clone, Copy, Debug)]
pub struct FilterRow {
    pub name: Name,
    pub kind: FilterKind,
    pub first: Option<Name>,
}

/// The row of a filter: its id, its kind, and its first property.
macro_rules! filter {
    ($name:literal, $kind:ident) => {
        FilterRow { name: Name(*$name), kind: FilterKind::$kind, first: None }
    };
    ($name:literal, $kind:ident, $first:literal) => {
        FilterRow { name: Name(*$name), kind: FilterKind::$kind, first: Some(Name(*$first)) }
    };
}

/// The filters, in the order in which they are listed. The first ten are of pictures, the others of sound.
pub const FILTERS: [FilterRow; 15] = [
    filter!(b"brightness   ", Brightness, b"level        "),
    filter!(b"greyscale    ", Greyscale),
    filter!(b"invert       ", Invert),
    filter!(b"mirror       ", Mirror, b"mirror       "),
    filter!(b"crop         ", Crop, b"left         "),
    filter!(b"threshold    ", Threshold, b"midpoint     "),
    filter!(b"sepia        ", Sepia),
    filter!(b"obscure      ", Obscure, b"size         "),
    filter!(b"opacity      ", Opacity, b"level        "),
    filter!(b"swapchannels ", SwapChannels, b"order        "),
    filter!(b"volume       ", Volume, b"level        "),
    filter!(b"mono         ", Mono),
    filter!(b"channelcopy  ", ChannelCopy, b"from         "),
    filter!(b"channelswap  ", ChannelSwap),
    filter!(b"silence      ", Silence),
];

/// The track that a filter is planted on; the current one where it is left out.
pub const TRACK: Number = Number {
    name: Name(*b"track        "),
    low: 0,
    high: 255,
};
/// The track that a merge changes; the one below the other where it is left out.
pub const A_TRACK: Number = Number {
    name: Name(*b"a_track      "),
    low: 0,
    high: 255,
};
/// The track that a merge takes; the current one where it is left out.
pub const B_TRACK: Number = Number {
    name: Name(*b"b_track      "),
    low: 0,
    high: 255,
};
/// The picture whose dark parts turn first; all parts at once where it is left out.
pub const RESOURCE: FileName = FileName {
    name: Name(*b"resource     "),
};
/// How wide the edge is between what has turned and what hasn't.
pub const SOFTNESS: Share = Share {
    name: Name(*b"softness     "),
};
/// Where one picture is laid over another, how large, and how strongly.
pub const GEOMETRY: Area = Area {
    name: Name(*b"geometry     "),
    default: Name(*b"0/0:100%x100%"),
};

/// What a merge does.
#[derive(Clone, Copy, Debug, PartialEq, Eq)]
pub enum MergeKind {
    Luma,
    Composite,
    Matte,
    Mix,
    Sum,
}

/// A merge by its id, with the name of its first property, where it has one.
#[derive(Clone, Copy, Debug)]
pub struct MergeRow {
    pub name: Name,
    pub kind: MergeKind,
    pub first: Option<Name>,
}

/// The row of a merge: its id, its kind, and its first property.
macro_rules! merge {
    ($name:literal, $kind:ident) => {
        MergeRow { name: Name(*$name), kind: MergeKind::$kind, first: None }
    };
    ($name:literal, $kind:ident, $first:literal) => {
        MergeRow { name: Name(*$name), kind: MergeKind::$kind, first: Some(Name(*$first)) }
    };
}

/// The merges, in the order in which they are listed. The first three are of pictures, the others of sound.
pub const MERGES: [MergeRow; 5] = [
    merge!(b"luma         ", Luma, b"resource     "),
    merge!(b"composite    ", Composite, b"geometry     "),
    merge!(b"matte        ", Matte),
    merge!(b"mix          ", Mix),
    merge!(b"sum          ", Sum),
];

/// The properties of each service, in the order in which they are read, for the manual; and of the two
/// options that plant a service on tracks, which are read before those of the service.
pub const PROPERTIES: &[(&str, &[Property])] = &[
    (
        "colour",
        &[
            Property::Moment(IN),
            Property::Moment(OUT),
            Property::Number(LENGTH),
        ],
    ),
    (
        "ppm",
        &[
            Property::Moment(IN),
            Property::Moment(OUT),
            Property::Number(LENGTH),
        ],
    ),
    (
        "brightness",
        &[
            Property::Moment(IN),
            Property::Moment(OUT),
            Property::Animated(LEVEL),
        ],
    ),
    ("greyscale", &[Property::Moment(IN), Property::Moment(OUT)]),
    ("invert", &[Property::Moment(IN), Property::Moment(OUT)]),
    (
        "mirror",
        &[
            Property::Moment(IN),
            Property::Moment(OUT),
            Property::Choice(MIRROR),
        ],
    ),
    (
        "crop",
        &[
            Property::Moment(IN),
            Property::Moment(OUT),
            Property::Count(LEFT),
            Property::Count(RIGHT),
            Property::Count(TOP),
            Property::Count(BOTTOM),
        ],
    ),
    (
        "threshold",
        &[
            Property::Moment(IN),
            Property::Moment(OUT),
            Property::Count(MIDPOINT),
        ],
    ),
    ("sepia", &[Property::Moment(IN), Property::Moment(OUT)]),
    (
        "obscure",
        &[
            Property::Moment(IN),
            Property::Moment(OUT),
            Property::Count(SIZE),
        ],
    ),
    (
        "opacity",
        &[
            Property::Moment(IN),
            Property::Moment(OUT),
            Property::Animated(LEVEL),
        ],
    ),
    (
        "swapchannels",
        &[
            Property::Moment(IN),
            Property::Moment(OUT),
            Property::Letters(ORDER),
        ],
    ),
    (
        "luma",
        &[Property::FileName(RESOURCE), Property::Share(SOFTNESS)],
    ),
    ("composite", &[Property::Area(GEOMETRY)]),
    ("matte", &[]),
    ("-filter", &[Property::Number(TRACK)]),
    (
        "-transition",
        &[
            Property::Number(A_TRACK),
            Property::Number(B_TRACK),
            Property::Moment(IN),
            Property::Moment(OUT),
        ],
    ),
    (
        "raw",
        &[
            Property::Choice(PIX),
            Property::Distance(REAL_TIME),
            Property::Count(BUFFER),
            Property::Count(SLICES),
            Property::Count(CACHE),
            Property::Moment(IN),
            Property::Moment(OUT),
        ],
    ),
];
