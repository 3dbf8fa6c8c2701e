//! The limits of a station and of its drawing, by the numbers of `What` (1, the bytes of a file, is
//! `ilk_base::FILE_BYTES`). A count may reach its limit and not pass it.

/// 2: the parts of a station
pub const PARTS: usize = 200;

/// 3: the bays of a station, which are its parts with switches
pub const BAYS: usize = 64;

/// 4: the connectivity nodes of a station
pub const NODES: usize = 1024;

/// 5: the switches of a station
pub const SWITCHES: usize = 512;

/// 6: the switches of one bay
pub const BAY_SWITCHES: usize = 24;

/// 7: the links of a station
pub const LINKS: usize = 2048;

/// 8: the taps of a station
pub const TAPS: usize = 2048;

/// 9: the bytes that the paths of all elements of a drawing have together. A path holds the names of all
/// that an element stands in, so names of megabytes over many elements would otherwise take gigabytes.
pub const PATH_BYTES: usize = 67_108_864;
