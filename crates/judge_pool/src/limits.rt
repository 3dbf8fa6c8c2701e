//! How many counted edges the graphs of a station may have.

/// How many counted edges the graphs of one bay may have.
pub const BAY_EDGES: usize = 8_000_000;
/// How many counted edges the graphs of all bays may have together.
pub const ALL_EDGES: usize = 80_000_000;
