//! Registers: where what each of them has stands.

/// Where what a register has stands. A register owns the block of its own number in the rack.
#[derive(Clone, Copy, Debug, Default)]
pub enum Register {
    /// It has nothing.
    #[default]
    Nothing,
    /// It has a fitted picture, by its place among those.
    Lent(usize),
    /// It has what its own block holds.
    Owned,
}
