//! The contractions of the items of a part and of more, composed item by item.
ghost use Rattle.std.specs.Prelude.{◌≡◌, ◌<◌, ◌≤◌, length, IfOk, IsTrue};
ghost use Rattle.contraction.specs.Answers.{AreNodes};

use contraction::Contraction;
use ilk_base::{BayId, Memory, NodeId, SwitchId};
use station_graph::{NodeList, Station};
use std::alloc::Global;

// Of which items a contraction is: of those of a part, of all but a switch, or of all.
#[derive(Clone, Copy)]
pub(crate) enum Items {
    Part(u8),
    AllBut(u16),
    All,
}

// Whether the links and taps of a part are among these.
fn has_part(items: Items, part: BayId) -> bool {
    match items {
        Items::Part(own) => part.0 == own,
        _ => true,
    }
}

// Whether a switch of a part is among these.
fn has_switch(items: Items, id: u16, part: BayId) -> bool {
    match items {
        Items::Part(own) => part.0 == own,
        Items::AllBut(moved) => id != moved,
        Items::All => true,
    }
}

// Adds one to all.
fn add(alloc: Global, all: &mut Contraction, one: &Contraction) -> Result<(), Memory> {
    *all = all.compose(alloc, one)?;
    Ok(())
}

// Adds a switch in a position.
fn add_switch(
    alloc: Global,
    station: &Station,
    id: SwitchId,
    closed: bool,
    all: &mut Contraction,
) -> Result<(), Memory>
    requires { id.0 < length station.now.switches }
{
    let one = Contraction::of_switch(alloc, station, id, closed)?;
    add(alloc, all, &one)
}

// Adds those of these items that are switches, in these positions, a sign for each switch of the station: 1 is closed.
fn add_switches(
    alloc: Global,
    station: &Station,
    items: Items,
    closed: &[u8],
    all: &mut Contraction,
) -> Result<(), Memory>
    requires { length closed.now ≡ length station.now.switches }
{
    for i in 0..station.switch_count() {
        let id = SwitchId(i);
        if has_switch(items, i, station.switch(id).bay) {
            add_switch(alloc, station, id, closed[i as usize] == b'1', all)?;
        }
    }
    Ok(())
}

// Adds a link.
fn add_link(alloc: Global, station: &Station, i: u16, all: &mut Contraction) -> Result<(), Memory>
    requires { i < length station.now.links }
{
    let one = Contraction::of_link(alloc, station, i)?;
    add(alloc, all, &one)
}

// Adds those of these items that are links.
fn add_links(
    alloc: Global,
    station: &Station,
    items: Items,
    all: &mut Contraction,
) -> Result<(), Memory> {
    for i in 0..station.link_count() {
        if has_part(items, station.link(i).part) {
            add_link(alloc, station, i, all)?;
        }
    }
    Ok(())
}

// Adds a tap.
fn add_tap(alloc: Global, station: &Station, i: u16, all: &mut Contraction) -> Result<(), Memory>
    requires { i < length station.now.taps }
{
    let one = Contraction::of_tap(alloc, station, i)?;
    add(alloc, all, &one)
}

// Adds those of these items that are taps.
fn add_taps(
    alloc: Global,
    station: &Station,
    items: Items,
    all: &mut Contraction,
) -> Result<(), Memory> {
    for i in 0..station.tap_count() {
        if has_part(items, station.tap(i).part) {
            add_tap(alloc, station, i, all)?;
        }
    }
    Ok(())
}

// Adds these items in these positions.
fn add_items(
    alloc: Global,
    station: &Station,
    items: Items,
    closed: &[u8],
    all: &mut Contraction,
) -> Result<(), Memory>
    requires { length closed.now ≡ length station.now.switches }
{
    add_switches(alloc, station, items, closed, all)?;
    add_links(alloc, station, items, all)?;
    add_taps(alloc, station, items, all)
}

// The contraction of these items in these positions, on all nodes that they touch.
pub(crate) fn contraction_of(
    alloc: Global,
    station: &Station,
    items: Items,
    closed: &[u8],
) -> Result<Contraction, Memory>
    requires { length closed.now ≡ length station.now.switches }
{
    let mut all = Contraction::empty(alloc, &NodeList::new(alloc))?;
    add_items(alloc, station, items, closed, &mut all)?;
    Ok(all)
}

// The nodes of these numbers.
pub(crate) fn nodes_of(alloc: Global, numbers: &[u16]) -> Result<NodeList, Memory> {
    let mut list = NodeList::new(alloc);
    for number in numbers {
        list.push(NodeId(*number))?;
    }
    Ok(list)
}

// The contraction of the same items on these nodes, where it has them.
fn on_nodes(alloc: Global, value: &Contraction, nodes: &NodeList) -> Option<Contraction> {
    if !value.keeps_all(nodes) {
        return None;
    }
    value.keep_only(alloc, nodes).ok()
}

// The same, on the nodes of these numbers.
fn on_numbers(alloc: Global, value: &Contraction, numbers: &[u16]) -> Option<Contraction> {
    match nodes_of(alloc, numbers) {
        Ok(nodes) => on_nodes(alloc, value, &nodes),
        Err(_) => None,
    }
}

// The contraction of these items in these positions, on these nodes; none where it has not all of them, or memory is
// wanted.
pub(crate) fn kept_of(
    alloc: Global,
    station: &Station,
    items: Items,
    closed: &[u8],
    nodes: &[u16],
) -> Option<Contraction>
    requires { length closed.now ≡ length station.now.switches }
{
    match contraction_of(alloc, station, items, closed) {
        Ok(whole) => on_numbers(alloc, &whole, nodes),
        Err(_) => None,
    }
}

// Whether there is a sign for each switch of the station.
pub(crate) fn is_whole(station: &Station, closed: &[u8]) -> bool
    ensures { IsTrue result → length closed.now ≡ length station.now.switches }
{
    closed.len() == usize::from(station.switch_count())
}

// So many nodes from 0 on.
#[tactic(auto, using(crate::proofs::FirstNodes::first_none, crate::proofs::FirstNodes::first_push, crate::proofs::FirstNodes::first_are_nodes))]
pub(crate) fn first_nodes(alloc: Global, count: u16) -> Result<NodeList, Memory>
    requires { count ≤ 1024 }
    ensures { IfOk result AreNodes }
{
    let mut list = NodeList::new(alloc);
    for i in 0..count {
        list.push(NodeId(i))?;
    }
    Ok(list)
}
