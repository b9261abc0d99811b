//! What the words of producers, filters and merges ask for, and what they have made.

ghost use Rattle.std.specs.Prelude.{ℕ, ◌≤◌, ◌<◌, ◌^◌, IfSome};
ghost use Rattle.std.proofs.Props.{props};

use mlt_base::{Span, UnitId};
use mlt_image::Colour;
use mlt_tree::FilterSpec;

/// The first and the last frame of a cut.
#[derive(Clone, Copy)]
pub(crate) struct Cut {
    pub first: u32,
    pub last: u32,
}

/// What a producer's value names.
#[derive(Clone, Copy)]
pub(crate) enum Origin<'a> {
    Colour(Colour),
    /// The name of a picture's file.
    Picture(&'a str),
    /// The name of a file of words.
    Words(&'a str),
}

/// The frames that a producer's properties ask for, and how long its source is to be.
#[derive(Clone, Copy)]
pub(crate) struct Wanted {
    pub first: u32,
    pub last: Option<u32>,
    pub length: Option<u32>,
    pub ghost last_short: { IfSome last (λ n. n < 2 ^ 31) } by { Prim.hlevel props },
    pub ghost length_range: { IfSome length (λ n. (1 ≤ n) × (n < 2 ^ 31)) } by { Prim.hlevel props },
}

/// The unit that a producer has made, and how many frames it has.
#[derive(Clone, Copy)]
pub(crate) struct Product {
    pub unit: UnitId,
    pub frames: u32,
}

/// The filter that a word asks for, from its first position to its last where that is given.
#[derive(Drop)]
pub(crate) struct Asked {
    pub spec: FilterSpec,
    pub first: u32,
    pub last: Option<u32>,
}

/// Two tracks, by their numbers, of which the first is changed by a merge; from the first position to the last,
/// where that is given.
#[derive(Clone, Copy)]
pub(crate) struct Crossing {
    pub a: u32,
    pub b: u32,
    pub first: u32,
    pub last: Option<u32>,
}

/// The clip that stands last on a track, by its index, its unit and its frames.
#[derive(Clone, Copy)]
pub(crate) struct LastClip {
    pub index: usize,
    pub unit: UnitId,
    pub span: Span,
}
