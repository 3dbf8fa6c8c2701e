//! The graphs of a bay.
use decision_graphs::Graph;
use std::rc::Rc;

/// The graphs of one view of a bay.
#[derive(Drop)]
pub struct ViewGraphs {
    /// the outer one, which bays that look the same hold together
    pub outer: Rc<Graph>,
    /// an inner one for each of its switches
    pub inner: Vec<Graph>,
    /// the outer one in which labels are one that no inner one tells apart, reduced
    pub merged: Rc<Graph>,
}

// The graphs of one view of a bay, before labels of the outer one are made one.
#[derive(Drop)]
pub(crate) struct Unmerged {
    pub(crate) outer: Rc<Graph>,
    pub(crate) inner: Vec<Graph>,
}

/// The graphs of a bay.
#[derive(Drop)]
pub struct BayGraphs {
    /// its first switch
    pub first: u16,
    /// how many switches it has
    pub count: u16,
    /// the graphs of the gap view
    pub gap: ViewGraphs,
    /// the graphs of the load view
    pub load: ViewGraphs,
    /// for each other part, in document order, whether it is a partner
    pub told: Vec<bool>,
}
