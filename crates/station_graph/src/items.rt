//! The items of a station.
use ilk_base::{BayId, Kind, NodeId};

/// A switch: a breaker, a disconnector, an earthing switch or an infeed.
#[derive(Clone, Copy, PartialEq, Eq)]
pub struct Switch {
    /// what it is
    pub kind: Kind,
    /// its first end, or the node at which it stands
    pub first: NodeId,
    /// its second end, another node than the first; exactly breakers and disconnectors have one
    pub second: Option<NodeId>,
    /// the part to which it belongs
    pub bay: BayId,
}

/// A link: equipment that always joins its two ends.
#[derive(Clone, Copy, PartialEq, Eq)]
pub struct Link {
    /// one end
    pub first: NodeId,
    /// the other end, another node than the first
    pub second: NodeId,
    /// whether the path through it is a parallel path for load, as that through a cable is and that
    /// through a transformer is not
    pub bond: bool,
    /// the part to which it belongs
    pub part: BayId,
}

/// A tap: a node from which load may come or go.
#[derive(Clone, Copy, PartialEq, Eq)]
pub struct Tap {
    /// the node
    pub node: NodeId,
    /// the part to which it belongs
    pub part: BayId,
}
