//! A way through the station.
use ilk_base::SwitchId;
use station_graph::NodeList;

/// A way through the station, node by node: each two neighbours in it are the ends of a breaker (for R3 a
/// closed one), of a closed disconnector, or of a link. It leads to a node where a closed switch stands, or to one
/// with a tap, and no other way from its first node to such a node has fewer nodes. Where the first
/// node is such a node itself, the chain is that node alone.
#[derive(Drop)]
pub struct Chain {
    /// its nodes, from the first to the last, no node twice
    pub nodes: NodeList,
    /// the closed switch at its last node for which it was sought, the first in document order; none where
    /// it leads to a tap
    pub by: Option<SwitchId>,
}
