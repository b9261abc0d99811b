//! Small values: fractions, spans, the numbers of units, and a counter of steps.

ghost use Rattle.std.specs.Prelude.{◌≡◌, ℕ, ◌+◌, ◌^◌, ◌<◌};

use crate::profile::Pos;
use std::marker::Model;

/// A fraction in units of 1/65536, so that 65536 is one.
#[derive(Clone, Copy, Debug, PartialEq, Eq, PartialOrd, Ord)]
pub struct Q16(pub u32);

/// The number of a unit of a composition, counted from 0.
#[derive(Clone, Copy, Debug, PartialEq, Eq, PartialOrd, Ord)]
pub struct UnitId(pub u32);

/// Frames from the first to the last, both of which belong to it. First is at most last in every span
/// that a value holds, and each call that is handed one asks for it (`IsSpan` in `specs/Span`).
#[derive(Clone, Copy, Debug, PartialEq, Eq)]
pub struct Span {
    pub first: Pos,
    pub last: Pos,
}

/// A counter of steps, seen as how many were counted.
#[derive(Drop)]
pub struct Steps {
    count: u64,
}

impl Model for Steps {
    ghost Value = { ℕ };

    ghost view = { λ steps. steps.count };
}

impl Steps {
    /// A counter at 0.
    pub fn new() -> Steps
        ensures { result ≡ 0 }
    {
        Steps { count: 0 }
    }

    /// How many steps were counted.
    pub fn count(&self) -> u64
        ensures { result ≡ self.now }
    {
        self.count
    }

    /// Counts one step.
    pub fn tick(&mut self)
        requires { self.old < 2 ^ 63 }
        ensures { self.new ≡ self.old + 1 }
    {
        self.count += 1;
    }
}
