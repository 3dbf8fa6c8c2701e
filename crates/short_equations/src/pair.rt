//! The terms of a switch in a view, read off the edges that are left at its ends.
ghost use Rattle.std.specs.Prelude.{◌≡◌, ◌≢◌, ◌<◌, ◌↔◌, ◌⊎◌, length, slice_get, Some, IsTrue, IfOk, OnOk};
ghost use Rattle.ilk_base.specs.declared.words.NodeId.{NodeId};
ghost use Rattle.station_graph.specs.declared.items.Switch.{Switch};
ghost use Rattle.station_graph.specs.Diagram.{node_count};
ghost use Rattle.short_equations.specs.declared.edge.TheConstants.{FIRST_MARK};
ghost use Rattle.short_equations.specs.declared.view.View.TheVariants.{Gap, Load, Bond};
ghost use Rattle.interlock_terms.specs.Terms.{Values, Solves, Grew};
ghost use Rattle.short_equations.specs.Edges.{AreEdges, IsTermTrue};
ghost use Rattle.short_equations.specs.Pairs.{AreOtherNodes, MeansSeen, MeansBetween, MeansLoaded, IsReadout, IsFarEnd};

use crate::edge::{Edge, FIRST_MARK};
use crate::readout::term_between;
use crate::view::View;
use ilk_base::{Memory, NodeId};
use interlock_terms::Terms;
use station_graph::{Station, Switch};
use std::alloc::Global;

/// Two terms of a switch in a view, by their numbers; none is never true.
#[derive(Clone, Copy, PartialEq, Eq)]
pub struct TermPair {
    /// what it would join is energisable; an end is live; its ends are bonded without it
    pub first: Option<usize>,
    /// what it would join is earthable; both ends are tapped
    pub second: Option<usize>,
}

fn is_neither(node: u16, first: NodeId, second: NodeId) -> bool
    ensures { IsTrue result ↔ ((node ≢ first.0) × (node ≢ second.0)) }
{
    node != first.0 && node != second.0
}

// The nodes of the station but two.
pub(crate) fn other_nodes(
    alloc: Global,
    station: &Station,
    first: NodeId,
    second: NodeId,
) -> Result<Vec<NodeId>, Memory>
    ensures { IfOk result (λ r. AreOtherNodes (node_count station.now) first.0 second.0 r.items) }
{
    let mut nodes = Vec::new(alloc);
    for n in 0..station.node_count() {
        if is_neither(n, first, second) {
            nodes.push(NodeId(n))?;
        }
    }
    Ok(nodes)
}

// The second end of the switch, or the node at which it stands.
pub(crate) fn far_end(switch: Switch) -> NodeId
    ensures { IsFarEnd switch result }
{
    match switch.second {
        Some(second) => second,
        None => switch.first,
    }
}

// A term for one of two, each of which may be missing.
fn either_way(
    terms: &mut Terms,
    first: Option<usize>,
    second: Option<usize>,
) -> Result<Option<usize>, Memory>
    ensures grew { OnOk result (Grew terms.old terms.new) }
    ensures means { IfOk result (λ t. (v : Values) → Solves v terms.new
        → IsTermTrue v t ↔ (IsTermTrue v first ⊎ IsTermTrue v second)) }
{
    let Some(a) = first else {
        return Ok(second);
    };
    let Some(b) = second else {
        return Ok(first);
    };
    let term = terms.either(a, b)?;
    Ok(Some(term))
}

// A term for both of two, each of which may be missing.
fn both_ways(
    terms: &mut Terms,
    first: Option<usize>,
    second: Option<usize>,
) -> Result<Option<usize>, Memory>
    ensures grew { OnOk result (Grew terms.old terms.new) }
    ensures means { IfOk result (λ t. (v : Values) → Solves v terms.new
        → IsTermTrue v t ↔ (IsTermTrue v first × IsTermTrue v second)) }
{
    let Some(a) = first else {
        return Ok(None);
    };
    let Some(b) = second else {
        return Ok(None);
    };
    let term = terms.both(a, b)?;
    Ok(Some(term))
}

// The term under which one of two nodes sees the mark in one step.
fn seen(
    terms: &mut Terms,
    edges: &[Edge],
    first: NodeId,
    second: NodeId,
    mark: NodeId,
) -> Result<Option<usize>, Memory>
    requires edges { AreEdges edges.now }
    requires first { first.0 < mark.0 }
    requires second { second.0 < mark.0 }
    ensures grew { OnOk result (Grew terms.old terms.new) }
    ensures means { IfOk result (MeansSeen terms.new edges.now first.0 second.0 mark.0) }
{
    let a = term_between(terms, edges, first, mark)?;
    let b = term_between(terms, edges, second, mark)?;
    let term = either_way(terms, a, b)?;
    Ok(term)
}

// The term under which the edges lead between two nodes in one step.
fn between(
    terms: &mut Terms,
    edges: &[Edge],
    first: NodeId,
    second: NodeId,
) -> Result<Option<usize>, Memory>
    requires edges { AreEdges edges.now }
    requires first { first.0 < FIRST_MARK }
    requires second { second.0 < FIRST_MARK }
    requires differ { first.0 ≢ second.0 }
    ensures grew { OnOk result (Grew terms.old terms.new) }
    ensures means { IfOk result (MeansBetween terms.new edges.now first.0 second.0) }
{
    if first.0 < second.0 {
        let term = term_between(terms, edges, first, second)?;
        return Ok(term);
    }
    let term = term_between(terms, edges, second, first)?;
    Ok(term)
}

// The term under which two nodes are joined, or both tapped.
fn loaded(
    terms: &mut Terms,
    edges: &[Edge],
    first: NodeId,
    second: NodeId,
) -> Result<Option<usize>, Memory>
    requires edges { AreEdges edges.now }
    requires first { first.0 < FIRST_MARK }
    requires second { second.0 < FIRST_MARK }
    requires differ { first.0 ≢ second.0 }
    ensures grew { OnOk result (Grew terms.old terms.new) }
    ensures means { IfOk result (MeansLoaded terms.new edges.now first.0 second.0) }
{
    let mark = NodeId(FIRST_MARK + 1);
    let joined = between(terms, edges, first, second)?;
    let a = term_between(terms, edges, first, mark)?;
    let b = term_between(terms, edges, second, mark)?;
    let tapped = both_ways(terms, a, b)?;
    let term = either_way(terms, joined, tapped)?;
    Ok(term)
}

// What the edges say in the gap view at two nodes.
fn read_gap(
    terms: &mut Terms,
    edges: &[Edge],
    first: NodeId,
    second: NodeId,
) -> Result<TermPair, Memory>
    requires edges { AreEdges edges.now }
    requires first { first.0 < FIRST_MARK }
    requires second { second.0 < FIRST_MARK }
    ensures grew { OnOk result (Grew terms.old terms.new) }
    ensures reads { IfOk result (IsReadout Gap terms.new edges.now first.0 second.0) }
{
    let on = seen(terms, edges, first, second, NodeId(FIRST_MARK))?;
    let earth = seen(terms, edges, first, second, NodeId(FIRST_MARK + 1))?;
    Ok(TermPair {
        first: on,
        second: earth,
    })
}

// What the edges say in the load view at two nodes.
fn read_load(
    terms: &mut Terms,
    edges: &[Edge],
    first: NodeId,
    second: NodeId,
) -> Result<TermPair, Memory>
    requires edges { AreEdges edges.now }
    requires first { first.0 < FIRST_MARK }
    requires second { second.0 < FIRST_MARK }
    requires differ { first.0 ≢ second.0 }
    ensures grew { OnOk result (Grew terms.old terms.new) }
    ensures reads { IfOk result (IsReadout Load terms.new edges.now first.0 second.0) }
{
    let live = seen(terms, edges, first, second, NodeId(FIRST_MARK))?;
    let both = loaded(terms, edges, first, second)?;
    Ok(TermPair {
        first: live,
        second: both,
    })
}

/// The two terms of a view at two nodes; where they are one node, of the gap view alone.
pub(crate) fn read_pair(
    terms: &mut Terms,
    edges: &[Edge],
    view: View,
    first: NodeId,
    second: NodeId,
) -> Result<TermPair, Memory>
    requires edges { AreEdges edges.now }
    requires first { first.0 < FIRST_MARK }
    requires second { second.0 < FIRST_MARK }
    ensures grew { OnOk result (Grew terms.old terms.new) }
    ensures reads { IfOk result (λ p. (view ≡ Gap) ⊎ (first.0 ≢ second.0)
        → IsReadout view terms.new edges.now first.0 second.0 p) }
{
    if view == View::Gap {
        let pair = read_gap(terms, edges, first, second)?;
        return Ok(pair);
    }
    if first == second {
        return Ok(TermPair {
            first: None,
            second: None,
        });
    }
    if view == View::Load {
        let pair = read_load(terms, edges, first, second)?;
        return Ok(pair);
    }
    let bonded = between(terms, edges, first, second)?;
    Ok(TermPair {
        first: bonded,
        second: None,
    })
}
