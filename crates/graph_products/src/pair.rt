//! Pairs of nodes, or of labels.

/// A node of the first graph and one of the second, or a label of each.
#[derive(Clone, Copy, PartialEq, Eq, Hash)]
pub struct Pair {
    /// that of the first graph
    pub first: u32,
    /// that of the second graph
    pub second: u32,
}
