//! What is found of a block.
use ilk_base::{Op, Rule, SwitchId};
use station_graph::Vector;

/// A vector in which a block releases what the rules forbid.
#[derive(Drop)]
pub struct Loose {
    /// the first rule that is broken in the vector
    pub rule: Rule,
    /// the vector; where the moved switch is none of the block's own, its entry says nothing
    pub vector: Vector,
}

/// What is found of a block: where it is loose and where it is strict. It is the same as the rules where it
/// is neither.
#[derive(Drop)]
pub struct Finding {
    /// the operation of the block
    pub op: Op,
    /// the switches that its conditions name, each once
    pub own: Vec<SwitchId>,
    /// a vector in which it releases what the rules forbid, if there is one
    pub loose: Option<Loose>,
    /// a vector with a position of its own switches by which it denies what the rules allow, if there is one
    pub strict: Option<Vector>,
}
