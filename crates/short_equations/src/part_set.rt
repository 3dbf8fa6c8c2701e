//! Sets of parts, and the nodes that no other part touches.
ghost use Rattle.std.specs.Prelude.{◌≡◌, ◌↔◌, ◌<◌, ◌≤◌, ℕ, length, slice_get, Some, IsTrue, IfOk};
ghost use Rattle.station_graph.specs.Connection.{Item};
ghost use Rattle.station_graph.specs.Sharing.{Touches, AtSwitch, AtLink, AtTap};
ghost use Rattle.ilk_base.specs.declared.words.NodeId.{NodeId};
ghost use Rattle.station_graph.specs.Diagram.{IsStation};
ghost use Rattle.short_equations.specs.declared.edge.TheConstants.{FIRST_MARK};
ghost use Rattle.short_equations.specs.Fragments.{IsIn, InParts, AreInner, SwitchesInner, LinksInner, TapsInner};

use crate::edge::Edge;
use ilk_base::{BayId, Memory, NodeId, SwitchId};
use station_graph::{Link, Station, Switch, Tap};
use std::alloc::Global;

/// Some parts of a station, by their numbers.
#[derive(Clone, Copy)]
pub enum PartSet {
    /// this part alone
    Only(BayId),
    /// those before this number
    Below(u16),
    /// those from this number on
    From(u16),
    /// all but this part
    But(BayId),
}

impl PartSet {
    // Whether the part is one of them.
    fn has(self, part: BayId) -> bool
        ensures { IsTrue result ↔ IsIn self part.0 }
    {
        match self {
            PartSet::Only(other) => part == other,
            PartSet::Below(end) => (part.0 as u16) < end,
            PartSet::From(first) => first <= part.0 as u16,
            PartSet::But(other) => part != other,
        }
    }
}

fn switch_touches(switch: Switch, node: NodeId) -> bool
    ensures { IsTrue result ↔ AtSwitch switch node.0 }
{
    switch.first == node || switch.second == Some(node)
}

fn link_touches(link: Link, node: NodeId) -> bool
    ensures { IsTrue result ↔ AtLink link node.0 }
{
    link.first == node || link.second == node
}

// Whether the switch is of these parts, if it is at the node.
fn switch_fits(switch: Switch, node: NodeId, set: PartSet) -> bool
    ensures { IsTrue result → AtSwitch switch node.0 → IsIn set switch.bay.0 }
{
    !switch_touches(switch, node) || set.has(switch.bay)
}

// Whether the link is of these parts, if it is at the node.
fn link_fits(link: Link, node: NodeId, set: PartSet) -> bool
    ensures { IsTrue result → AtLink link node.0 → IsIn set link.part.0 }
{
    !link_touches(link, node) || set.has(link.part)
}

// Whether the tap is of these parts, if it is at the node.
fn tap_fits(tap: Tap, node: NodeId, set: PartSet) -> bool
    ensures { IsTrue result → AtTap tap node.0 → IsIn set tap.part.0 }
{
    tap.node != node || set.has(tap.part)
}

// Whether all switches at the node are of these parts.
fn switches_inner(station: &Station, node: NodeId, set: PartSet) -> bool
    ensures { IsTrue result → SwitchesInner station.now set node.0 (length station.now.switches) }
{
    for i in 0..station.switch_count() {
        let switch = station.switch(SwitchId(i));
        if !switch_fits(switch, node, set) {
            return false;
        }
    }
    true
}

// Whether all links at the node are of these parts.
fn links_inner(station: &Station, node: NodeId, set: PartSet) -> bool
    ensures { IsTrue result → LinksInner station.now set node.0 (length station.now.links) }
{
    for i in 0..station.link_count() {
        let link = station.link(i);
        if !link_fits(link, node, set) {
            return false;
        }
    }
    true
}

// Whether all taps at the node are of these parts.
fn taps_inner(station: &Station, node: NodeId, set: PartSet) -> bool
    ensures { IsTrue result → TapsInner station.now set node.0 (length station.now.taps) }
{
    for i in 0..station.tap_count() {
        let tap = station.tap(i);
        if !tap_fits(tap, node, set) {
            return false;
        }
    }
    true
}

// Whether all items at the node are of these parts.
fn is_inner(station: &Station, node: NodeId, set: PartSet) -> bool
    ensures { IsTrue result → (item : Item) → Touches station.now item node.0 → InParts station.now set item }
{
    let switches = switches_inner(station, node, set);
    let links = links_inner(station, node, set);
    let taps = taps_inner(station, node, set);
    switches && links && taps
}

// Whether an edge ends at the node.
fn is_used(edges: &[Edge], node: NodeId) -> bool {
    edges
        .iter()
        .any(|edge| edge.first == node || edge.second == node)
}

// Whether an edge ends at the node, and all items at it are of these parts.
fn is_gone(station: &Station, edges: &[Edge], node: NodeId, set: PartSet) -> bool
    ensures { IsTrue result → (item : Item) → Touches station.now item node.0 → InParts station.now set item }
{
    is_used(edges, node) && is_inner(station, node, set)
}

/// Nodes at which edges end and all items are of these parts.
pub(crate) fn inner_nodes(
    alloc: Global,
    station: &Station,
    edges: &[Edge],
    set: PartSet,
) -> Result<Vec<NodeId>, Memory>
    ensures inner { IfOk result (λ r. AreInner station.now set r.items) }
    ensures small { IfOk result
        (λ r. (i : ℕ) (n : NodeId) → slice_get r.items i ≡ Some n → n.0 < FIRST_MARK) }
    ensures station { IsStation station.now }
{
    let mut nodes = Vec::new(alloc);
    for n in 0..station.node_count() {
        let node = NodeId(n);
        if is_gone(station, edges, node, set) {
            nodes.push(node)?;
        }
    }
    Ok(nodes)
}
