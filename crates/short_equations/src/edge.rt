//! Edges of a symbolic contraction.
ghost use Rattle.std.specs.Prelude.{◌≡◌, ◌≢◌, ◌↔◌, ◌<◌, ℕ, IfOk, IsTrue};
ghost use Rattle.short_equations.specs.declared.edge.TheConstants.{FIRST_MARK};
ghost use Rattle.interlock_terms.specs.Terms.{Values};
ghost use Rattle.short_equations.specs.Edges.{Along, AreEdges, AreWays, IsOther};

use ilk_base::{Memory, NodeId};
use std::alloc::Global;

/// The number of the first mark: past the numbers of all nodes.
pub const FIRST_MARK: u16 = 1024;

/// An edge from a node to a node or mark of a greater number, there where its term is true.
#[derive(Clone, Copy)]
pub struct Edge {
    /// the lesser end
    pub first: NodeId,
    /// the greater end
    pub second: NodeId,
    /// the term's number
    pub term: usize,
}

// A way from one node.
#[derive(Clone, Copy)]
pub(crate) struct Way {
    pub(crate) to: NodeId,
    pub(crate) term: usize,
}

fn is_elsewhere(edge: Edge, node: NodeId) -> bool
    ensures { IsTrue result ↔ ((edge.first.0 ≢ node.0) × (edge.second.0 ≢ node.0)) }
{
    edge.first != node && edge.second != node
}

// The edges that do not end at the node.
pub(crate) fn elsewhere(alloc: Global, edges: &[Edge], node: NodeId) -> Result<Vec<Edge>, Memory>
    requires edges { AreEdges edges.now }
    ensures edges { IfOk result (λ r. AreEdges r.items) }
    ensures exact { IfOk result (λ r. (v : Values) (a b : ℕ)
        → Along v r.items a b ↔ (Along v edges.now a b × (a ≢ node.0) × (b ≢ node.0))) }
{
    let mut kept = Vec::new(alloc);
    for i in 0..edges.len() {
        let edge = edges[i];
        if is_elsewhere(edge, node) {
            kept.push(edge)?;
        }
    }
    Ok(kept)
}

// The other end of the edge where it ends at the node.
fn other(edge: Edge, node: NodeId) -> Option<NodeId>
    ensures { IsOther edge node.0 result }
{
    if edge.first == node {
        return Some(edge.second);
    }
    if edge.second == node {
        return Some(edge.first);
    }
    None
}

// The ways from a node.
pub(crate) fn ways(alloc: Global, edges: &[Edge], node: NodeId) -> Result<Vec<Way>, Memory>
    requires edges { AreEdges edges.now }
    requires node { node.0 < FIRST_MARK }
    ensures { IfOk result (λ r. AreWays edges.now node.0 r.items) }
{
    let mut found = Vec::new(alloc);
    for i in 0..edges.len() {
        let edge = edges[i];
        if let Some(to) = other(edge, node) {
            found.push(Way {
                to,
                term: edge.term,
            })?;
        }
    }
    Ok(found)
}
