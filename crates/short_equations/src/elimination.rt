//! Elimination of a node.
ghost use Rattle.std.specs.Prelude.{◌≡◌, ◌<◌, ℕ, length, slice_get, Some, None, IfOk, OnOk, IfSome, IsTrue, ◌↔◌};
ghost use Rattle.short_equations.specs.declared.edge.TheConstants.{FIRST_MARK};
ghost use Rattle.ilk_base.specs.declared.words.NodeId.{NodeId};
ghost use Rattle.interlock_terms.specs.Terms.{Grew};
ghost use Rattle.short_equations.specs.Edges.{AreEdges, IsEdge, Adds, AddsFrom, AddsThrough, EliminatesNode, IsPlaceOf, StandsFor, AddsAll};

use crate::edge::{Edge, FIRST_MARK, Way, elsewhere, ways};
use ilk_base::{Memory, NodeId};
use interlock_terms::Terms;
use std::alloc::Global;

pub(crate) fn is_between(edge: Edge, first: NodeId, second: NodeId) -> bool
    ensures { IsTrue result ↔ ((edge.first ≡ first) × (edge.second ≡ second)) }
{
    edge.first == first && edge.second == second
}

// The place of the edge between these ends.
fn place_of(edges: &[Edge], first: NodeId, second: NodeId) -> Option<usize>
    ensures { IfSome result (IsPlaceOf edges.now first second) }
{
    for i in 0..edges.len() {
        if is_between(edges[i], first, second) {
            return Some(i);
        }
    }
    None
}

// Adds an edge; where there is one between the same ends, that is there where either is.
pub(crate) fn add_edge(terms: &mut Terms, edges: &mut Vec<Edge>, edge: Edge) -> Result<(), Memory>
    requires edges { AreEdges edges.old.items }
    requires edge { IsEdge edge }
    ensures grew { OnOk result (Grew terms.old terms.new) }
    ensures edges { OnOk result (AreEdges edges.new.items) }
    ensures adds { OnOk result (Adds terms.new edges.old.items edge edges.new.items) }
{
    match place_of(edges, edge.first, edge.second) {
        Some(place) => {
            let old = edges[place];
            let term = terms.either(old.term, edge.term)?;
            edges[place] = Edge {
                first: edge.first,
                second: edge.second,
                term,
            };
        }
        None => edges.push(edge)?,
    }
    Ok(())
}

// Adds the edges over one way to a node and each way to a greater end.
fn add_from(terms: &mut Terms, edges: &mut Vec<Edge>, from: Way, ways: &[Way]) -> Result<(), Memory>
    requires edges { AreEdges edges.old.items }
    requires from { from.to.0 < FIRST_MARK }
    ensures grew { OnOk result (Grew terms.old terms.new) }
    ensures edges { OnOk result (AreEdges edges.new.items) }
    ensures adds { OnOk result
        (AddsFrom terms.new edges.old.items from ways.now (length ways.now) edges.new.items) }
{
    for i in 0..ways.len() {
        let way = ways[i];
        if from.to.0 < way.to.0 {
            let term = terms.both(from.term, way.term)?;
            add_edge(
                terms,
                edges,
                Edge {
                    first: from.to,
                    second: way.to,
                    term,
                },
            )?;
        }
    }
    Ok(())
}

// Adds the edges over each two ways.
fn add_through(terms: &mut Terms, edges: &mut Vec<Edge>, ways: &[Way]) -> Result<(), Memory>
    requires edges { AreEdges edges.old.items }
    ensures grew { OnOk result (Grew terms.old terms.new) }
    ensures edges { OnOk result (AreEdges edges.new.items) }
    ensures adds { OnOk result
        (AddsThrough terms.new edges.old.items ways.now (length ways.now) edges.new.items) }
{
    for i in 0..ways.len() {
        let from = ways[i];
        if from.to.0 < FIRST_MARK {
            add_from(terms, edges, from, ways)?;
        }
    }
    Ok(())
}

/// The edges with one node eliminated: those elsewhere, and one for each two ways from it.
pub(crate) fn eliminate(
    alloc: Global,
    terms: &mut Terms,
    edges: &[Edge],
    node: NodeId,
) -> Result<Vec<Edge>, Memory>
    requires edges { AreEdges edges.now }
    requires node { node.0 < FIRST_MARK }
    ensures grew { OnOk result (Grew terms.old terms.new) }
    ensures edges { IfOk result (λ r. AreEdges r.items) }
    ensures eliminates { IfOk result
        (λ r. EliminatesNode terms.new node.0 edges.now r.items) }
{
    let mut left = elsewhere(alloc, edges, node)?;
    let from_node = ways(alloc, edges, node)?;
    add_through(terms, &mut left, &from_node)?;
    Ok(left)
}

/// The edges with these nodes eliminated, one after the other.
pub(crate) fn eliminate_all(
    alloc: Global,
    terms: &mut Terms,
    edges: &[Edge],
    nodes: &[NodeId],
) -> Result<Vec<Edge>, Memory>
    requires edges { AreEdges edges.now }
    requires nodes { (i : ℕ) (n : NodeId) → slice_get nodes.now i ≡ Some n → n.0 < FIRST_MARK }
    ensures grew { OnOk result (Grew terms.old terms.new) }
    ensures edges { IfOk result (λ r. AreEdges r.items) }
    ensures stands { IfOk result
        (λ r. StandsFor terms.new nodes.now (length nodes.now) edges.now r.items) }
{
    let mut left = Vec::from_slice(alloc, edges)?;
    for i in 0..nodes.len() {
        let fewer = eliminate(alloc, terms, &left, nodes[i])?;
        left = fewer;
    }
    Ok(left)
}

/// The edges of both lists.
pub(crate) fn add_all(terms: &mut Terms, edges: &mut Vec<Edge>, more: &[Edge]) -> Result<(), Memory>
    requires edges { AreEdges edges.old.items }
    requires more { AreEdges more.now }
    ensures grew { OnOk result (Grew terms.old terms.new) }
    ensures edges { OnOk result (AreEdges edges.new.items) }
    ensures adds { OnOk result
        (AddsAll terms.new edges.old.items more.now (length more.now) edges.new.items) }
{
    for i in 0..more.len() {
        add_edge(terms, edges, more[i])?;
    }
    Ok(())
}
