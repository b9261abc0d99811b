//! Operations on registers.

use mlt_base::{Pos, SourceNo};
use mlt_tree::{FilterStep, MergeStep};

/// An operation on registers, each of which has a picture (or samples) or nothing.
///
/// A register is named by how far it lies below the top one, which is 0 below it. What an operation
/// makes of registers is `apply` in `specs/Registers`, and which registers it asks for is `Finds` in
/// `specs/Fits`.
#[derive(Clone, Copy, Debug, Default)]
pub enum Op {
    /// Adds a register with what a source has at a position.
    Load { source: SourceNo, at: Pos },
    /// Adds a register with nothing.
    #[default]
    Absent,
    /// Changes the register `depth` below the top, where it has something.
    Filter { depth: u16, step: FilterStep },
    /// Puts what the register `b` below the top has, where it has something, into the one `a` below the
    /// top; `b` has nothing then.
    Merge { a: u16, b: u16, step: MergeStep },
    /// Leaves, of the top `count` registers, the one `row` above the lowest of them.
    Keep { row: u16, count: u16 },
}
