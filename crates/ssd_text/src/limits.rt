//! The limits of the text of a drawing.

/// The most elements.
pub const ELEMENTS: usize = 200_000;

/// How deep elements may be nested in one another.
pub const DEPTH: usize = 64;
