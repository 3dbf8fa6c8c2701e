//! The nodes that are kept before each layer of a graph.
ghost use Rattle.std.specs.Prelude.{◌≡◌, ℕ, ◌+◌, ◌<◌, ◌≤◌, ◌⊎◌, ◌↔◌, List, suc, length, map, slice_get, Some, true};
ghost use Rattle.std.specs.Prelude.{IfOk, IsTrue, Contains, ◌^◌};
ghost use Rattle.station_graph.specs.Diagram.{part_count};
ghost use Rattle.station_graph.specs.Connection.{a_switch};
ghost use Rattle.station_graph.specs.Sharing.{AtSwitch, Touches};
ghost use Rattle.contraction.specs.Answers.{AreNodes};
ghost use Rattle.judge_pool.specs.Graphs.{other_of, IsOwn};
ghost use Rattle.judge_intake.specs.SharedNodes.{AreShared, IsSharedBySome, IsSharing, SharesFrom};
ghost use Rattle.judge_pool.specs.Needing.{IsNeededOuter, TouchesOther, IsNeededInner, TouchesOwn, BayNeeds};
ghost use Rattle.judge_pool.specs.Places.{node_listed};

use crate::others::other_number;
use ilk_base::{BayId, Memory, NodeId, SwitchId};
use station_graph::{NodeList, Station, Switch};
use std::alloc::Global;

/// Which nodes the parts of a station share.
#[derive(Drop)]
pub struct Sharing {
    /// for each part the nodes that it shares
    pub parts: Vec<NodeList>,
    /// the nodes that some part shares, rising
    pub all: NodeList,
}

// Whether the switch touches the node.
fn touches(switch: Switch, node: u16) -> bool
    ensures { IsTrue result ↔ AtSwitch switch node }
{
    if switch.first.0 == node {
        return true;
    }
    match switch.second {
        Some(second) => second.0 == node,
        None => false,
    }
}

// Whether the switch of this number touches the node.
fn switch_touches(station: &Station, id: u16, node: u16) -> bool
    requires { id < length station.now.switches }
    ensures { IsTrue result ↔ Touches station.now (a_switch id) node }
{
    touches(station.switch(SwitchId(id)), node)
}

// Whether one of the bay's other switches, from a place on, touches the node.
fn other_touches(
    station: &Station,
    first: u16,
    moved: u16,
    from: u16,
    others: u16,
    node: u16,
) -> bool
    requires { first + others < length station.now.switches }
    ensures { IsTrue result ↔ TouchesOther station.now moved first others from node }
{
    let _count = station.switch_count();
    for i in from..others {
        if switch_touches(station, other_number(first, moved, i), node) {
            return true;
        }
    }
    false
}

// Whether the moved switch touches the node, or one of the bay's other switches from a place on does.
fn is_needed(station: &Station, first: u16, moved: u16, from: u16, others: u16, node: u16) -> bool
    requires moved { moved < length station.now.switches }
    requires those { first + others < length station.now.switches }
    ensures { IsTrue result ↔ IsNeededInner station.now moved first others from node }
{
    switch_touches(station, moved, node) || other_touches(station, first, moved, from, others, node)
}

// The places in a list of those of its nodes that the moved switch or one of the bay's other switches from a place on
// touches, rising.
pub(crate) fn inner_places(
    alloc: Global,
    station: &Station,
    list: &NodeList,
    first: u16,
    moved: u16,
    from: u16,
    others: u16,
) -> Result<NodeList, Memory>
    requires moved { moved < length station.now.switches }
    requires those { first + others < length station.now.switches }
    requires nodes { AreNodes list.now }
    requires has { (n : ℕ) → IsNeededInner station.now moved first others from n → Contains list.now n }
    ensures { IfOk result (λ l. (n : ℕ) →
        Contains (map (node_listed list.now) l) n ↔ IsNeededInner station.now moved first others from n) }
{
    let nodes = list.numbers();
    let mut places = NodeList::new(alloc);
    for k in 0..nodes.len() {
        if is_needed(station, first, moved, from, others, nodes[k]) {
            places.push(NodeId(k as u16))?;
        }
    }
    Ok(places)
}

// Whether one of the bay's switches touches the node.
fn own_touches(station: &Station, first: u16, count: u16, node: u16) -> bool
    requires { first + count ≤ length station.now.switches }
    ensures { IsTrue result ↔ TouchesOwn station.now first count node }
{
    let _count = station.switch_count();
    for i in 0..count {
        if switch_touches(station, first + i, node) {
            return true;
        }
    }
    false
}

// Whether the bay shares the node, or one of its switches touches it.
fn is_needed_own(
    station: &Station,
    shared: &[NodeList],
    bay: BayId,
    first: u16,
    count: u16,
    node: u16,
) -> bool
    requires shared { AreShared station.now shared.now }
    requires bay { bay.0 < part_count station.now }
    requires those { first + count ≤ length station.now.switches }
    ensures { IsTrue result ↔ BayNeeds station.now bay.0 first count node }
{
    shared[usize::from(bay.0)].numbers().contains(&node) || own_touches(station, first, count, node)
}

// The nodes that the bay shares, and those that its switches touch, rising.
pub(crate) fn bay_nodes(
    alloc: Global,
    station: &Station,
    shared: &[NodeList],
    bay: BayId,
    first: u16,
    count: u16,
) -> Result<NodeList, Memory>
    requires shared { AreShared station.now shared.now }
    requires bay { bay.0 < part_count station.now }
    requires those { first + count ≤ length station.now.switches }
    ensures exact { IfOk result (λ l. (n : ℕ) → Contains l n ↔ BayNeeds station.now bay.0 first count n) }
    ensures nodes { IfOk result AreNodes }
{
    let mut nodes = NodeList::new(alloc);
    for node in 0..station.node_count() {
        if is_needed_own(station, shared, bay, first, count, node) {
            nodes.push(NodeId(node))?;
        }
    }
    Ok(nodes)
}

// Whether one of the other parts between two places shares the node.
fn other_shares(shared: &[NodeList], bay: BayId, from: u16, to: u16, node: u16) -> bool
    requires few { to < length shared.now }
    requires most { length shared.now + 1 < 2 ^ 16 }
    ensures { IsTrue result ↔ SharesFrom shared.now bay.0 from to node }
{
    for i in from..to {
        let nodes = &shared[usize::from(other_number(0, u16::from(bay.0), i))];
        if nodes.numbers().contains(&node) {
            return true;
        }
    }
    false
}

// Whether one of the first other parts shares the node, and the bay or one of the rest shares it too.
fn is_needed_between(
    station: &Station,
    shared: &[NodeList],
    bay: BayId,
    place: u16,
    others: u16,
    node: u16,
) -> bool
    requires shared { AreShared station.now shared.now }
    requires count { suc others ≡ part_count station.now }
    requires bay { bay.0 < part_count station.now }
    requires place { place ≤ others }
    ensures { IsTrue result ↔ IsNeededOuter station.now bay.0 place node }
{
    let _count = station.part_count();
    if !other_shares(shared, bay, 0, place, node) {
        return false;
    }
    shared[usize::from(bay.0)].numbers().contains(&node)
        || other_shares(shared, bay, place, others, node)
}

// The nodes that one of the first other parts touches, and that the bay or one of the rest touches too,
// rising.
pub(crate) fn outer_nodes(
    alloc: Global,
    station: &Station,
    sharing: &Sharing,
    bay: BayId,
    place: u16,
    others: u16,
) -> Result<NodeList, Memory>
    requires sharing { IsSharing station.now sharing.now }
    requires count { suc others ≡ part_count station.now }
    requires bay { bay.0 < part_count station.now }
    requires place { place ≤ others }
    ensures { IfOk result (λ l. (n : ℕ) → Contains l n ↔ IsNeededOuter station.now bay.0 place n) }
{
    let _count = station.part_count();
    let all = sharing.all.numbers();
    let mut nodes = NodeList::new(alloc);
    for k in 0..all.len() {
        let node = all[k];
        if is_needed_between(station, &sharing.parts, bay, place, others, node) {
            nodes.push(NodeId(node))?;
        }
    }
    Ok(nodes)
}

// Whether one of the parts shares the node.
fn some_shares(station: &Station, shared: &[NodeList], node: u16) -> bool
    requires { AreShared station.now shared.now }
    ensures { IsTrue result ↔ IsSharedBySome station.now node }
{
    let _count = station.part_count();
    for part in 0..shared.len() {
        if shared[part].numbers().contains(&node) {
            return true;
        }
    }
    false
}

// The nodes that some part shares, rising.
fn all_shared(alloc: Global, station: &Station, shared: &[NodeList]) -> Result<NodeList, Memory>
    requires { AreShared station.now shared.now }
    ensures { IfOk result (λ l. (n : ℕ) → Contains l n ↔ IsSharedBySome station.now n) }
{
    let mut nodes = NodeList::new(alloc);
    for node in 0..station.node_count() {
        if some_shares(station, shared, node) {
            nodes.push(NodeId(node))?;
        }
    }
    Ok(nodes)
}

// The nodes that each part shares.
fn each_shared(alloc: Global, station: &Station) -> Result<Vec<NodeList>, Memory>
    ensures { IfOk result (λ v. AreShared station.now v.items) }
{
    let mut lists = Vec::new(alloc);
    for part in 0..station.part_count() {
        let nodes = station.shared_nodes(alloc, BayId(part as u8))?;
        lists.push(nodes)?;
    }
    Ok(lists)
}

/// Which nodes the parts of a station share.
pub fn sharing_of(alloc: Global, station: &Station) -> Result<Sharing, Memory>
    ensures { IfOk result (IsSharing station.now) }
{
    let parts = each_shared(alloc, station)?;
    let all = all_shared(alloc, station, &parts)?;
    Ok(Sharing { parts, all })
}
