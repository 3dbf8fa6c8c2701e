//! Pairs of choices that are made together.

/// A choice of the first graph and a choice of the second that are made together.
#[derive(Clone, Copy, Debug, PartialEq, Eq)]
pub struct Row {
    /// the choice of the first graph
    pub first: u32,
    /// the choice of the second graph
    pub second: u32,
}
