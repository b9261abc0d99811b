//! The limits of a composition and of a run, and the length of a source that has none of its own. The
//! definitions and the code name the same constants; the manual tells them.

/// Words of a run.
pub const MOST_WORDS: u32 = 10_000;

/// Entries of one playlist.
pub const MOST_ENTRIES: u32 = 100_000;

/// Frames of one playlist, unit or source. Contracts say of a number of frames, or of a position, that it is below 2^31.
pub const MOST_FRAMES: u32 = 2_147_483_647;

/// Tracks of one tractor.
pub const MOST_TRACKS: u32 = 256;

/// How deep units may be nested that are played.
pub const MOST_DEPTH: u32 = 16;

/// The weight of what is played: its sources, filters and merges, as they are worked out at one position.
pub const MOST_WEIGHT: u32 = 65_536;

/// Frames that a run writes.
pub const MOST_WRITTEN: u32 = 1_000_000;

/// Bytes that a run holds.
pub const MOST_BYTES: u64 = 2_147_483_648;

/// Pixels of a width or a height, of a profile, of a picture and of a geometry.
pub const MOST_PIXELS: u32 = 4096;

/// Each of the two numbers of a frame rate.
pub const MOST_OF_RATE: u32 = 100_000;

/// Frames a second.
pub const MOST_RATE: u32 = 1000;

/// Pixels from a frame's left or upper edge to the corner of a geometry, either way, where it is given in pixels.
pub const MOST_OFFSET: u32 = 16_384;

/// Hundredths of a frame's size in a geometry, either way for its corner.
pub const MOST_HUNDREDTHS: u32 = 1000;

/// Pixels from a frame's left or upper edge to the corner of any geometry, either way.
pub const MOST_CORNER: u32 = 40_960;

/// Hundredths of an opacity, which is then whole.
pub const MOST_OPACITY: u32 = 100;

/// The greatest sample that a PPM picture may name.
pub const MOST_SAMPLE: u32 = 65_535;

/// Frames of a source that has no length of its own.
pub const OWN_LENGTH: u32 = 15_000;
