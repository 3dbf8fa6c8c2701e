//! The order of the sections: the signals of the bays, what stands between, the releases of the bays.

/// The section between those of the signals of bays, which come first, and those of their releases.
pub(crate) const BETWEEN: usize = 64;

/// The section of the releases of the first bay.
pub(crate) const FIRST_RELEASES: usize = 65;

/// The last section.
pub(crate) const LAST: usize = 128;
