//! Why a unit can't be made, or a graph can't be sealed.

/// Why a tractor is refused, or a sealing. A plant is told by its number among those of the tracks, from 0.
#[derive(Clone, Copy, Debug, PartialEq, Eq)]
pub enum GraphFault {
    /// A plant is on a track that isn't there, of so many.
    BadTrack { plant: u32, no: u32, tracks: u32 },
    /// A merge is of a track with itself.
    SameTrack { plant: u32, no: u32 },
    /// The tracks of a tractor have no frame.
    NoProducer,
    /// The unit that is sealed is nested deeper than 16.
    TooDeep { depth: u32 },
    /// The unit that is sealed has a weight above this limit.
    TooMany { limit: u32 },
    /// Want of memory.
    Memory,
}
