//! How many distinct contractions a part may have.

/// The most distinct contractions of a part after one of its switches.
pub const CONTRACTIONS: usize = 4096;

/// The most after its last switch: the letters of its alphabet, which an index names by one byte.
pub const LETTERS: usize = 255;
