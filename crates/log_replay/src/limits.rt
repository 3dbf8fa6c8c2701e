//! The limits of a log.

/// The most records of a log.
pub const MOST_RECORDS: usize = 20_000;
