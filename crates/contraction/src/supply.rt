//! How a node is supplied.

/// How a node is supplied by the items of a contraction.
#[derive(Clone, Copy, PartialEq, Eq)]
pub enum Supply {
    /// neither fed nor tapped: no load can come or go here
    Bare,
    /// joined to a tap and to no closed infeed
    Tapped,
    /// joined to a closed infeed
    Fed,
}
