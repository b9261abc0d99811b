//! Positions, and the size and rate of the frames of a run.

ghost use Rattle.std.specs.Prelude.{ℕ, ◌*◌, ◌≤◌};
ghost use Rattle.mlt_base.specs.declared.limits.TheConstants.{MOST_OF_RATE, MOST_PIXELS, MOST_RATE};

/// The number of a frame, counted from 0.
#[derive(Clone, Copy, Debug, PartialEq, Eq, PartialOrd, Ord)]
pub struct Pos(pub u32);

/// The number of a source of pictures or sound in its table, counted from 0.
#[derive(Clone, Copy, Debug, PartialEq, Eq, PartialOrd, Ord)]
pub struct SourceNo(pub u32);

/// A frame rate, `num/den` frames a second.
///
/// Both numbers are 1 to 100,000, and the rate is 1 to 1000.
#[derive(Clone, Copy, Debug)]
pub struct Rate {
    pub num: u32,
    pub den: u32,
    pub ghost den_at_least_one: { 1 ≤ den },
    pub ghost num_at_most: { num ≤ MOST_OF_RATE },
    pub ghost rate_at_least_one: { den ≤ num },
    pub ghost rate_at_most_thousand: { num ≤ MOST_RATE * den },
}

/// The size and rate of the frames of a run. All profiles are progressive with square pixels.
///
/// Width and height are in pixels, each 1 to 4096.
#[derive(Clone, Copy, Debug)]
pub struct Profile {
    pub width: u32,
    pub height: u32,
    pub rate: Rate,
    pub ghost width_at_least_one: { 1 ≤ width },
    pub ghost width_at_most: { width ≤ MOST_PIXELS },
    pub ghost height_at_least_one: { 1 ≤ height },
    pub ghost height_at_most: { height ≤ MOST_PIXELS },
}
