//! How the nodes of two contractions lie among one another.
use contraction::Selection;

// The places of the nodes of the first, of the second, and of those that are asked for, among the nodes of both.
pub(crate) struct Lies {
    pub(crate) first: &'static [u16],
    pub(crate) second: &'static [u16],
    pub(crate) asked: &'static [u16],
}

// Whether the nodes lie so, and the selection keeps these.
pub(crate) fn lies_so(selection: &Selection, lies: &Lies, nodes: &[u16]) -> bool {
    selection.first_places() == lies.first
        && selection.second_places() == lies.second
        && selection.places() == lies.asked
        && selection.kept() == nodes
}
