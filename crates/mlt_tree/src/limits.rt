//! The limits of the files that a run loads. All other limits stand in `mlt_base`, below.

/// Bytes of one file that is loaded.
pub const MOST_OF_FILE: u64 = 268_435_456;

/// Bytes of all files that a run loads.
pub const MOST_LOADED: u64 = 1_073_741_824;
