//! Marks on the nodes that items of a part, or of the other parts, touch.
ghost use Rattle.std.specs.Prelude.{◌≡◌, ℕ, ◌<◌, ◌↔◌, true, false, length, replicate, slice_get, Some, IfOk, IsTrue};
ghost use Rattle.std.specs.Prelude.{Contains};
ghost use Rattle.station_graph.specs.Diagram.{node_count, IsStation, SwitchFits};
ghost use Rattle.station_graph.specs.Sharing.{AtSwitch, AtLink};
ghost use Rattle.station_graph.specs.Marking.{Marks, PartIs, SwitchesAt, LinksAt, TapsAt, TouchedFrom};
ghost use Rattle.station_graph.specs.Nodes.{Rises};

use crate::items::{Link, Switch};
use crate::nodes::NodeList;
use crate::station::Station;
use ilk_base::{BayId, Memory, NodeId, SwitchId};
use std::alloc::Global;

// Which nodes are touched by items of the part or, where not `inside`, of the other parts.
pub(crate) fn touched(
    alloc: Global,
    station: &Station,
    part: BayId,
    inside: bool,
) -> Result<Vec<bool>, Memory>
    ensures len { IfOk result (λ m. length m.items ≡ node_count station.now) }
    ensures exact { IfOk result (λ m. (n : ℕ) → (slice_get m.items n ≡ Some true)
        ↔ TouchedFrom inside part.0 station.now n) }
    ensures station { IsStation station.now }
{
    let mut marks = unmarked(alloc, station.node_count())?;
    mark_items(station, part, inside, &mut marks);
    Ok(marks)
}

fn unmarked(alloc: Global, count: u16) -> Result<Vec<bool>, Memory>
    ensures { IfOk result (λ m. m.items ≡ replicate count false) }
{
    Ok(vec![in alloc; false; usize::from(count)]?)
}

fn mark_items(station: &Station, part: BayId, inside: bool, marks: &mut [bool])
    requires { length marks.old ≡ node_count station.now }
    ensures { Marks (TouchedFrom inside part.0 station.now) marks.old marks.new }
{
    mark_switches(station, part, inside, marks);
    mark_links(station, part, inside, marks);
    mark_taps(station, part, inside, marks);
}

fn mark_switches(station: &Station, part: BayId, inside: bool, marks: &mut [bool])
    requires { length marks.old ≡ node_count station.now }
    ensures { Marks (SwitchesAt inside part.0 station.now (length station.now.switches))
        marks.old marks.new }
{
    for i in 0..station.switch_count() {
        let switch = station.switch(SwitchId(i));
        if is_from(inside, part, switch.bay) {
            mark_switch(switch, marks);
        }
    }
}

fn mark_links(station: &Station, part: BayId, inside: bool, marks: &mut [bool])
    requires { length marks.old ≡ node_count station.now }
    ensures { Marks (LinksAt inside part.0 station.now (length station.now.links))
        marks.old marks.new }
{
    for i in 0..station.link_count() {
        let link = station.link(i);
        if is_from(inside, part, link.part) {
            mark_link(link, marks);
        }
    }
}

fn mark_taps(station: &Station, part: BayId, inside: bool, marks: &mut [bool])
    requires { length marks.old ≡ node_count station.now }
    ensures { Marks (TapsAt inside part.0 station.now (length station.now.taps))
        marks.old marks.new }
{
    for i in 0..station.tap_count() {
        let tap = station.tap(i);
        if is_from(inside, part, tap.part) {
            mark(tap.node, marks);
        }
    }
}

// Whether the owner is the part or, where not `inside`, another one.
fn is_from(inside: bool, part: BayId, owner: BayId) -> bool
    ensures { IsTrue result ↔ PartIs inside part.0 owner.0 }
{
    (owner == part) == inside
}

fn mark(node: NodeId, marks: &mut [bool])
    requires { node.0 < length marks.old }
    ensures { Marks (λ n. node.0 ≡ n) marks.old marks.new }
{
    marks[node.0 as usize] = true;
}

fn mark_switch(switch: Switch, marks: &mut [bool])
    requires { (n : ℕ) → AtSwitch switch n → n < length marks.old }
    ensures { Marks (AtSwitch switch) marks.old marks.new }
{
    mark(switch.first, marks);
    if let Some(second) = switch.second {
        mark(second, marks);
    }
}

fn mark_link(link: Link, marks: &mut [bool])
    requires { (n : ℕ) → AtLink link n → n < length marks.old }
    ensures { Marks (AtLink link) marks.old marks.new }
{
    mark(link.first, marks);
    mark(link.second, marks);
}

// The nodes that have both marks, rising.
pub(crate) fn marked_twice(
    alloc: Global,
    here: &[bool],
    elsewhere: &[bool],
) -> Result<NodeList, Memory>
    requires len { length elsewhere.now ≡ length here.now }
    requires few { length here.now < 65536 }
    ensures exact { IfOk result (λ l. (n : ℕ) → Contains l n
        ↔ ((slice_get here.now n ≡ Some true) × (slice_get elsewhere.now n ≡ Some true))) }
    ensures rises { IfOk result Rises }
{
    let mut nodes = NodeList::new(alloc);
    for i in 0..here.len() as u16 {
        if here[i as usize] && elsewhere[i as usize] {
            nodes.push(NodeId(i))?;
        }
    }
    Ok(nodes)
}
