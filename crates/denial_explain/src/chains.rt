//! Chains from a node to a closed switch, or to a tap.
ghost use Rattle.std.specs.Prelude.{◌≡◌, ℕ, ◌<◌, ◌≤◌, ◌↔◌, false, length, Contains, IfOk};
ghost use Rattle.station_graph.specs.Diagram.{node_count, HasTap, IsStation};
ghost use Rattle.station_graph.specs.Connection.{Touching, Joined};
ghost use Rattle.station_graph.specs.Supply.{ClosedAt};
ghost use Rattle.denial_explain.specs.Ways.{AllBelow, IsWay};
ghost use Rattle.denial_explain.specs.Chains.{LeadsToClosed, LeadsToTap};
ghost use Rattle.denial_explain.specs.ExplanationText.{ChainFits};
ghost use Rattle.station_graph.specs.Alike.{IsVector};

use crate::chain::Chain;
use crate::neighbours::Neighbours;
use crate::steps::{Way, follow, steps_to};
use ilk_base::{Kind, Memory, NodeId, SwitchId};
use station_graph::{NodeList, Station, Vector};
use std::alloc::Global;

// A shortest chain from the node to a closed switch of this kind: it goes along what is joined in
// `joining`, and the switch is closed in `vector`. Of several at the last node, the first in document
// order is named. Time and memory: the nodes and all items.
pub(crate) fn chain_to_closed(
    alloc: Global,
    station: &Station,
    joining: &Vector,
    vector: &Vector,
    kind: Kind,
    from: NodeId,
) -> Result<Chain, Memory>
    requires joining { IsVector station.now joining.now }
    requires vector { IsVector station.now vector.now }
    requires from { from.0 < node_count station.now }
    requires there { (m : ℕ) × Joined station.now joining.now from.0 m × ClosedAt station.now vector.now kind m }
    ensures chain { IfOk result (LeadsToClosed station.now joining.now vector.now kind from.0) }
    ensures fits { IfOk result (ChainFits station.now) }
{
    let ends = closed_nodes(alloc, station, vector, kind)?;
    let way = way_to(alloc, station, joining, &ends, from)?;
    let by = closed_at(station, vector, kind, way.last);
    Ok(Chain {
        nodes: way.nodes,
        by: Some(by),
    })
}

// A shortest chain from the node to a tap, along what is joined in `joining`. Time and memory: the nodes
// and all items.
pub(crate) fn chain_to_tap(
    alloc: Global,
    station: &Station,
    joining: &Vector,
    from: NodeId,
) -> Result<Chain, Memory>
    requires joining { IsVector station.now joining.now }
    requires from { from.0 < node_count station.now }
    requires there { (m : ℕ) × Joined station.now joining.now from.0 m × HasTap station.now m }
    ensures chain { IfOk result (LeadsToTap station.now joining.now from.0) }
    ensures fits { IfOk result (ChainFits station.now) }
{
    let ends = tap_nodes(alloc, station)?;
    let way = way_to(alloc, station, joining, &ends, from)?;
    Ok(Chain {
        nodes: way.nodes,
        by: None,
    })
}

// A shortest way from the node to one of the ends.
fn way_to(
    alloc: Global,
    station: &Station,
    joining: &Vector,
    ends: &NodeList,
    from: NodeId,
) -> Result<Way, Memory>
    requires joining { IsVector station.now joining.now }
    requires from { from.0 < node_count station.now }
    requires ends { AllBelow (node_count station.now) ends.now }
    requires there { (m : ℕ) × Joined station.now joining.now from.0 m × Contains ends.now m }
    ensures way { IfOk result (λ w. IsWay (Touching false station.now joining.now) (Contains ends.now) from.0
        w.last.0 w.nodes) }
    ensures nodes { IfOk result (λ w. AllBelow (node_count station.now) w.nodes) }
{
    station.is_station();
    let neighbours = Neighbours::of(alloc, station, joining)?;
    let steps = steps_to(alloc, &neighbours, ends)?;
    follow(alloc, &neighbours, &steps, from)
}

// The nodes of the closed switches of this kind, in document order.
fn closed_nodes(
    alloc: Global,
    station: &Station,
    vector: &Vector,
    kind: Kind,
) -> Result<NodeList, Memory>
    requires { IsVector station.now vector.now }
    ensures exact { IfOk result (λ l. (n : ℕ) → Contains l n ↔ ClosedAt station.now vector.now kind n) }
    ensures station { IsStation station.now }
{
    let mut nodes = NodeList::new(alloc);
    for i in 0..station.switch_count() {
        let switch = station.switch(SwitchId(i));
        if switch.kind == kind && vector.closed(SwitchId(i)) {
            nodes.push(switch.first)?;
        }
    }
    Ok(nodes)
}

// The nodes of the taps, in document order.
fn tap_nodes(alloc: Global, station: &Station) -> Result<NodeList, Memory>
    ensures exact { IfOk result (λ l. (n : ℕ) → Contains l n ↔ HasTap station.now n) }
    ensures station { IsStation station.now }
{
    let mut nodes = NodeList::new(alloc);
    for i in 0..station.tap_count() {
        nodes.push(station.tap(i).node)?;
    }
    Ok(nodes)
}

// The first closed switch of this kind at the node, in document order.
fn closed_at(station: &Station, vector: &Vector, kind: Kind, node: NodeId) -> SwitchId
    requires vector { IsVector station.now vector.now }
    requires there { ClosedAt station.now vector.now kind node.0 }
    ensures at { (at : ClosedAt station.now vector.now kind node.0) × (at.number ≡ result.0) }
    ensures first { (at : ClosedAt station.now vector.now kind node.0) → result.0 ≤ at.number }
{
    for i in 0..station.switch_count() {
        let switch = station.switch(SwitchId(i));
        if switch.kind == kind && vector.closed(SwitchId(i)) && switch.first == node {
            return SwitchId(i);
        }
    }
    unreachable!()
}
