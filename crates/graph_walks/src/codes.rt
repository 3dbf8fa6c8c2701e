//! Labels of four graphs.

/// The labels to which four graphs lead by the same choices.
#[derive(Clone, Copy)]
pub struct Codes {
    /// that of the first graph
    pub first: u32,
    /// that of the second
    pub second: u32,
    /// that of the third
    pub third: u32,
    /// that of the fourth
    pub fourth: u32,
}
