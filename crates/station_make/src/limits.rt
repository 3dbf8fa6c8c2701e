//! The stations that are made.

/// The fewest feeders of a station that is made.
pub const LEAST_FEEDERS: u8 = 2;

/// The most feeders of a station that is made.
pub const MOST_FEEDERS: u8 = 60;
