//! Where a terminal stands.

/// Where a terminal stands. The definitions speak of it.
#[derive(Clone, Copy, PartialEq, Eq)]
pub enum TerminalPlace {
    /// on earth
    Earth,
    /// on the node of this number in document order
    Node(u32),
    /// on no node of the drawing; the place is where the terminal begins in the text
    Missing(u32),
}
