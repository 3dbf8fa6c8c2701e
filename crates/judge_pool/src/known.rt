//! Layers that were made, each known by what it was made of.
use decision_graphs::SharedNumbers;

// What a layer was made of: the number of the list of the states before it, that of the list of its letters, and that
// of the nodes that are kept behind it.
#[derive(Clone, Copy, PartialEq, Eq, Hash)]
pub(crate) struct LayerKey {
    pub(crate) states: usize,
    pub(crate) letters: usize,
    pub(crate) keep: usize,
}

// A layer that was made: of what, the number of the list of the states to which it leads, and its edges.
#[derive(Drop)]
pub(crate) struct KnownLayer {
    pub(crate) key: LayerKey,
    pub(crate) next: usize,
    pub(crate) edges: SharedNumbers,
}

// From a layer on: the states to which it leads, the number of their list, and its edges.
#[derive(Drop)]
pub(crate) struct KnownStep {
    pub(crate) next: Vec<usize>,
    pub(crate) number: usize,
    pub(crate) edges: SharedNumbers,
}
