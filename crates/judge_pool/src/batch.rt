//! Batches of compositions.

// Of which two values, on which nodes, a value was made.
#[derive(Clone, Copy)]
pub(crate) struct Made {
    pub(crate) first: usize,
    pub(crate) second: usize,
    pub(crate) keep: usize,
}

// The compositions of one value with each letter of a list, on the same nodes.
#[derive(Clone, Copy)]
pub(crate) struct Batch {
    pub(crate) first: usize,
    pub(crate) letters: usize,
    pub(crate) keep: usize,
}

// A value and the nodes on which it is to stand in place of its own.
#[derive(Clone, Copy, PartialEq, Eq, Hash)]
pub(crate) struct Stand {
    pub(crate) id: usize,
    pub(crate) keep: usize,
}

// A list of values, by its number, and the nodes on which they are to stand in place of their own.
#[derive(Clone, Copy, PartialEq, Eq, Hash)]
pub(crate) struct ListStand {
    pub(crate) list: usize,
    pub(crate) keep: usize,
}
