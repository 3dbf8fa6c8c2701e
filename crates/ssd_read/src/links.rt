//! The links and taps that equipment gives, added to a builder.
ghost use Rattle.std.specs.Prelude.{◌≡◌, ℕ, ◌<◌, ◌==◌, [], ◌∷◌, length, slice_index};
ghost use Rattle.station_graph.specs.Diagram.{node_count, part_count};
ghost use Rattle.ssd_text.specs.Nesting.{Entry};
ghost use Rattle.ssd_read.specs.Types.{type_of};
ghost use Rattle.ssd_read.specs.Steps.{tap_step, tap_steps, link_step, links_after, links_along};
ghost use Rattle.ssd_read.specs.Steps.{lone_tap, transformer_steps};
ghost use Rattle.ssd_read.specs.Seen.{Builds, AreNodes, KeepsSwitches};

use crate::refusal::SsdRefusal;
use crate::types::{EquipmentType, is_tapless};
use ilk_base::{BayId, NodeId};
use station_graph::{Builder, Link, Tap};

// Adds a tap.
pub(crate) fn add_tap(builder: &mut Builder, part: BayId, node: u32) -> Result<(), SsdRefusal>
    requires part { part.0 < part_count builder.old }
    requires node { node < node_count builder.old }
    ensures builds { Builds builder.old (tap_step part.0 node ∷ []) result builder.new }
    ensures same { KeepsSwitches builder.old builder.new }
{
    let _count = builder.node_count();
    let item = Tap {
        node: NodeId(node as u16),
        part,
    };
    match builder.tap(item) {
        Ok(()) => Ok(()),
        Err(fault) => Err(SsdRefusal::from(fault)),
    }
}

// Adds a tap on each node.
fn add_taps(builder: &mut Builder, part: BayId, nodes: &[u32]) -> Result<(), SsdRefusal>
    requires part { part.0 < part_count builder.old }
    requires nodes { AreNodes builder.old nodes.now }
    ensures builds { Builds builder.old (tap_steps part.0 nodes.now) result builder.new }
    ensures same { KeepsSwitches builder.old builder.new }
{
    for node in nodes {
        match add_tap(builder, part, *node) {
            Ok(()) => {}
            Err(fault) => return Err(fault),
        }
    }
    Ok(())
}

// Adds a link where the nodes differ.
fn add_link(
    builder: &mut Builder,
    bond: bool,
    part: BayId,
    first: u32,
    second: u32,
) -> Result<(), SsdRefusal>
    requires part { part.0 < part_count builder.old }
    requires first { first < node_count builder.old }
    requires second { second < node_count builder.old }
    ensures builds { Builds builder.old (link_step bond part.0 first second) result builder.new }
    ensures same { KeepsSwitches builder.old builder.new }
{
    if first == second {
        return Ok(());
    }
    let _count = builder.node_count();
    let item = Link {
        first: NodeId(first as u16),
        second: NodeId(second as u16),
        bond,
        part,
    };
    match builder.link(item) {
        Ok(()) => Ok(()),
        Err(fault) => Err(SsdRefusal::from(fault)),
    }
}

// Adds a link between each two neighbours on different nodes.
pub(crate) fn add_links(
    builder: &mut Builder,
    bond: bool,
    part: BayId,
    nodes: &[u32],
) -> Result<(), SsdRefusal>
    requires part { part.0 < part_count builder.old }
    requires nodes { AreNodes builder.old nodes.now }
    ensures builds { Builds builder.old (links_along bond part.0 nodes.now) result builder.new }
    ensures same { KeepsSwitches builder.old builder.new }
{
    match nodes {
        [] => Ok(()),
        [first, rest @ ..] => add_links_after(builder, bond, part, *first, rest),
    }
}

// Adds a link between each two neighbours on different nodes, of which the first stands before the others.
fn add_links_after(
    builder: &mut Builder,
    bond: bool,
    part: BayId,
    first: u32,
    nodes: &[u32],
) -> Result<(), SsdRefusal>
    requires first { first < node_count builder.old }
    requires part { part.0 < part_count builder.old }
    requires nodes { AreNodes builder.old nodes.now }
    ensures builds { Builds builder.old (links_after bond part.0 first nodes.now) result builder.new }
    ensures same { KeepsSwitches builder.old builder.new }
{
    let mut last = first;
    for node in nodes {
        match add_link(builder, bond, part, last, *node) {
            Ok(()) => {}
            Err(fault) => return Err(fault),
        }
        last = *node;
    }
    Ok(())
}

// Adds a tap where there is one node alone.
pub(crate) fn add_lone_tap(
    builder: &mut Builder,
    kind: Option<EquipmentType>,
    part: BayId,
    nodes: &[u32],
) -> Result<(), SsdRefusal>
    requires part { part.0 < part_count builder.old }
    requires nodes { AreNodes builder.old nodes.now }
    ensures builds { (e : Entry) → kind ≡ type_of e →
        Builds builder.old (lone_tap e part.0 nodes.now) result builder.new }
    ensures same { KeepsSwitches builder.old builder.new }
{
    if nodes.len() != 1 {
        return Ok(());
    }
    if is_tapless(kind) {
        return Ok(());
    }
    add_tap(builder, part, nodes[0])
}

// Adds what a transformer gives.
pub(crate) fn add_transformer(
    builder: &mut Builder,
    part: BayId,
    nodes: &[u32],
) -> Result<(), SsdRefusal>
    requires part { part.0 < part_count builder.old }
    requires nodes { AreNodes builder.old nodes.now }
    ensures builds { Builds builder.old (transformer_steps part.0 nodes.now) result builder.new }
    ensures same { KeepsSwitches builder.old builder.new }
{
    match add_links(builder, false, part, nodes) {
        Ok(()) => add_taps(builder, part, nodes),
        Err(fault) => Err(fault),
    }
}
