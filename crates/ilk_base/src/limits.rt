//! The limit that each text from outside has.

/// The most bytes of a file that the program reads as a drawing, positions, a log, an order or equations:
/// 8 MiB.
pub const FILE_BYTES: usize = 8_388_608;
