//! Properties: each is a name with the kind of value that it takes.

use mlt_base::Name;

/// A whole number from `low` to `high`, with a default.
#[derive(Clone, Copy, Debug)]
pub struct Count {
    pub name: Name,
    pub low: u32,
    pub high: u32,
    pub default: u32,
}

/// A whole number from `low` to `high`, which may be left out.
#[derive(Clone, Copy, Debug)]
pub struct Number {
    pub name: Name,
    pub low: u32,
    pub high: u32,
}

/// A whole number whose distance from 0 counts, at most `high`; 0 by default.
#[derive(Clone, Copy, Debug)]
pub struct Distance {
    pub name: Name,
    pub high: u32,
}

/// One of two words, the first by default.
#[derive(Clone, Copy, Debug)]
pub struct Choice {
    pub name: Name,
    pub first: Name,
    pub second: Name,
}

/// A number that may go from key to key, with its default as a text.
#[derive(Clone, Copy, Debug)]
pub struct Animated {
    pub name: Name,
    pub default: Name,
}

/// Four letters of `r`, `g`, `b` and `a`, with their default.
#[derive(Clone, Copy, Debug)]
pub struct Letters {
    pub name: Name,
    pub default: Name,
}

/// A time, which may be left out.
#[derive(Clone, Copy, Debug)]
pub struct Moment {
    pub name: Name,
}

/// A number from 0 to 1, which is read in 65536ths; 0 by default.
#[derive(Clone, Copy, Debug)]
pub struct Share {
    pub name: Name,
}

/// The name of a file, which may be left out.
#[derive(Clone, Copy, Debug)]
pub struct FileName {
    pub name: Name,
}

/// A place and a size in the frame, with their default as a text.
#[derive(Clone, Copy, Debug)]
pub struct Area {
    pub name: Name,
    pub default: Name,
}

/// A property, by the kind of its value.
#[derive(Clone, Copy, Debug)]
pub enum Property {
    Count(Count),
    Number(Number),
    Distance(Distance),
    Choice(Choice),
    Animated(Animated),
    Letters(Letters),
    Moment(Moment),
    Share(Share),
    FileName(FileName),
    Area(Area),
}
